use node_json::{Field, FormFault, document_text, read_document};
use std::alloc::Global;
use std::test::Fail;

fn fault_of(alloc: Global, text: &str) -> Option<FormFault> {
    read_document(alloc, text.as_bytes()).err()
}

fn field(field: Field) -> Option<FormFault> {
    Some(FormFault::Form { field, entry: None })
}

fn entry(field: Field, entry: usize) -> Option<FormFault> {
    Some(FormFault::Form {
        field,
        entry: Some(entry),
    })
}

/// A document with these texts between the brackets of its lists.
fn document(
    alloc: Global,
    generators: &str,
    diagrams: &str,
    maps: &str,
    nodes: &str,
) -> Result<String, Fail> {
    Ok(format!(in alloc;
        "{{\"diagrams\":[{diagrams}],\"format\":1,\"generators\":[{generators}],\"maps\":[{maps}],\"nodes\":[{nodes}]}}"
    )?)
}

#[test]
fn reads_numbers(rt: HostRuntime) -> Result<(), Fail> {
    let alloc = rt.alloc();
    let wrong = entry(Field::Diagrams, 0);
    let cases = [
        ("0", None),
        (" 0 ", None),
        ("0.0", wrong),
        ("0e0", wrong),
        ("-0", wrong),
        ("1", wrong),
        ("00", Some(FormFault::NotJson)),
        ("18446744073709551615", wrong),
        ("18446744073709551616", wrong),
        ("1e400", Some(FormFault::NotJson)),
        ("true", wrong),
        ("0,\"root\":0", None),
        ("7,\"root\":0", None),
        ("0,\"root\":7", wrong),
        ("0,\"other\":0", wrong),
    ];
    for (root, want) in cases {
        let diagram = format!(in alloc; "{{\"name\":\"X\",\"root\":{root}}}")?;
        let text = document(alloc, "", diagram.as_str(), "", "{\"label\":[0,0]}")?;
        assert_eq!(rt; fault_of(alloc, text.as_str()), want, "{root}");
    }
    Ok(())
}

#[test]
fn reads_nodes(rt: HostRuntime) -> Result<(), Fail> {
    let alloc = rt.alloc();
    let shape = |place: usize| Some(FormFault::Shape(place));
    let early = |place: usize| Some(FormFault::Early(place));
    let label = |place: usize| Some(FormFault::Label(place));
    let cases = [
        ("{\"label\":[59999,6]}", None),
        ("{\"label\":[60000,0]}", label(0)),
        ("{\"label\":[0,7]}", label(0)),
        ("{\"label\":[18446744073709551615,0]}", label(0)),
        ("{\"label\":[18446744073709551616,0]}", shape(0)),
        ("{\"label\":[1.0,0]}", shape(0)),
        ("{\"label\":[0,-0]}", shape(0)),
        ("{\"label\":[0]}", shape(0)),
        ("{\"label\":[0,0,0]}", shape(0)),
        ("{\"label\":[0,0],\"label\":[1,1]}", None),
        ("{\"label\":[70000,0],\"other\":1}", shape(0)),
        ("{\"labels\":[[0,0],[70000,0]]}", label(0)),
        ("{\"labels\":[[70000,0],[0]]}", shape(0)),
        ("{\"labels\":[[0,0]]}", shape(0)),
        ("{\"labels\":[0,0]}", shape(0)),
        ("{}", shape(0)),
        ("[]", shape(0)),
        ("{\"label\":[0,0]},{\"label\":[0,7]}", label(1)),
        (
            "{\"bwds\":[],\"fwds\":[],\"regs\":[1],\"sings\":[]},{\"label\":[0,0]}",
            early(0),
        ),
        (
            "{\"bwds\":[],\"fwds\":[],\"regs\":[0],\"sings\":[]}",
            early(0),
        ),
        (
            "{\"bwds\":[],\"fwds\":[],\"regs\":[],\"sings\":[]}",
            shape(0),
        ),
    ];
    for (nodes, want) in cases {
        let text = document(alloc, "", "", "", nodes)?;
        assert_eq!(rt; fault_of(alloc, text.as_str()), want, "{nodes}");
    }
    Ok(())
}

/// A node, and its fault behind the nodes of x, f, (x, f) and the diagram of length 0 on x.
type PartsCase = (&'static str, Option<FormFault>);

const SHAPE: Option<FormFault> = Some(FormFault::Shape(4));

const EARLY: Option<FormFault> = Some(FormFault::Early(4));

const PARTS: [PartsCase; 20] = [
    (
        "{\"bwds\":[2],\"fwds\":[2],\"regs\":[0,0],\"sings\":[1]}",
        None,
    ),
    (
        "{\"bwds\":[2],\"fwds\":[2],\"regs\":[0],\"sings\":[1]}",
        SHAPE,
    ),
    (
        "{\"bwds\":[2],\"fwds\":[],\"regs\":[0,0],\"sings\":[1]}",
        SHAPE,
    ),
    (
        "{\"bwds\":[],\"fwds\":[2],\"regs\":[0,0],\"sings\":[1]}",
        SHAPE,
    ),
    (
        "{\"bwds\":[4],\"fwds\":[],\"regs\":[0],\"sings\":[]}",
        EARLY,
    ),
    (
        "{\"bwds\":[2],\"fwds\":[2],\"regs\":[0,2],\"sings\":[1]}",
        SHAPE,
    ),
    (
        "{\"bwds\":[2],\"fwds\":[1],\"regs\":[0,0],\"sings\":[1]}",
        SHAPE,
    ),
    (
        "{\"bwds\":[2],\"fwds\":[2],\"regs\":[0,3],\"sings\":[1]}",
        SHAPE,
    ),
    ("{\"bwds\":[],\"fwds\":[],\"regs\":[3],\"sings\":[]}", None),
    ("{\"bwds\":[],\"fwds\":[],\"regs\":[2],\"sings\":[]}", SHAPE),
    ("{\"heights\":[0],\"regs\":[2,2],\"sings\":[2]}", None),
    ("{\"heights\":[0,0],\"regs\":[2,2],\"sings\":[2,2]}", None),
    ("{\"heights\":[],\"regs\":[2],\"sings\":[]}", None),
    (
        "{\"heights\":[1,0],\"regs\":[2,2,2],\"sings\":[2,2]}",
        SHAPE,
    ),
    ("{\"heights\":[1],\"regs\":[2,2],\"sings\":[2]}", SHAPE),
    ("{\"heights\":[4],\"regs\":[2,2],\"sings\":[4]}", EARLY),
    ("{\"heights\":[0],\"regs\":[2,2],\"sings\":[]}", SHAPE),
    ("{\"heights\":[],\"regs\":[],\"sings\":[]}", SHAPE),
    ("{\"heights\":[0],\"regs\":[2,2],\"sings\":[0]}", SHAPE),
    ("{\"heights\":[0],\"regs\":[0,0],\"sings\":[0]}", SHAPE),
];

#[test]
fn fits_parts(rt: HostRuntime) -> Result<(), Fail> {
    let alloc = rt.alloc();
    for (last, want) in PARTS {
        let nodes = format!(in alloc;
            "{{\"label\":[0,0]}},{{\"label\":[1,1]}},{{\"labels\":[[0,0],[1,1]]}},{{\"bwds\":[],\"fwds\":[],\"regs\":[0],\"sings\":[]}},{last}"
        )?;
        let text = document(alloc, "", "", "", nodes.as_str())?;
        assert_eq!(rt; fault_of(alloc, text.as_str()), want, "{last}");
    }
    Ok(())
}

#[test]
fn limits_dimensions(rt: HostRuntime) -> Result<(), Fail> {
    let alloc = rt.alloc();
    for (top, want) in [(6usize, None), (7, Some(FormFault::Shape(7)))] {
        let mut nodes = String::from_str(alloc, "{\"label\":[0,0]}")?;
        for place in 0..top {
            let node = format!(in alloc;
                ",{{\"bwds\":[],\"fwds\":[],\"regs\":[{place}],\"sings\":[]}}"
            )?;
            nodes.push_str(node.as_str())?;
        }
        let text = document(alloc, "", "", "", nodes.as_str())?;
        assert_eq!(rt; fault_of(alloc, text.as_str()), want, "{top}");
    }
    Ok(())
}

/// Generators, diagrams and maps over the nodes of a label and of its identity, and their fault.
type EntriesCase = (&'static str, &'static str, &'static str, Option<FormFault>);

const ROOT: &str = "{\"name\":\"X\",\"root\":0}";

const MAP: &str = "{\"arrow\":1,\"name\":\"L\",\"source\":0,\"target\":0}";

const FIRST_GENERATOR: Option<FormFault> = Some(FormFault::Form {
    field: Field::Generators,
    entry: Some(0),
});

const SECOND_GENERATOR: Option<FormFault> = Some(FormFault::Form {
    field: Field::Generators,
    entry: Some(1),
});

const FIRST_DIAGRAM: Option<FormFault> = Some(FormFault::Form {
    field: Field::Diagrams,
    entry: Some(0),
});

const FIRST_MAP: Option<FormFault> = Some(FormFault::Form {
    field: Field::Maps,
    entry: Some(0),
});

const ENTRIES: [EntriesCase; 13] = [
    ("{\"name\":\"x\"}", ROOT, MAP, None),
    (
        "{\"name\":\"f\",\"source\":0,\"target\":0}",
        ROOT,
        MAP,
        None,
    ),
    ("{\"name\":\"f\",\"source\":0}", ROOT, MAP, FIRST_GENERATOR),
    (
        "{\"name\":\"x\"},{\"name\":\"f\",\"source\":0,\"target\":1}",
        ROOT,
        MAP,
        SECOND_GENERATOR,
    ),
    (
        "{\"name\":\"x\"},{\"name\":\"f\",\"source\":2,\"target\":0}",
        ROOT,
        MAP,
        SECOND_GENERATOR,
    ),
    (
        "{\"name\":\"x\"},{\"name\":\"x\"}",
        ROOT,
        MAP,
        SECOND_GENERATOR,
    ),
    ("{\"name\":\"X\"}", ROOT, MAP, FIRST_DIAGRAM),
    ("{\"name\":\"L\"}", ROOT, MAP, FIRST_MAP),
    (
        "",
        ROOT,
        "{\"arrow\":0,\"name\":\"L\",\"source\":0,\"target\":0}",
        FIRST_MAP,
    ),
    (
        "",
        ROOT,
        "{\"arrow\":1,\"name\":\"L\",\"source\":1,\"target\":0}",
        FIRST_MAP,
    ),
    (
        "",
        ROOT,
        "{\"arrow\":1,\"name\":\"X\",\"source\":0,\"target\":0}",
        FIRST_MAP,
    ),
    ("", "{\"name\":\"X\",\"root\":1}", MAP, FIRST_DIAGRAM),
    ("", "{\"name\":7,\"root\":0}", MAP, FIRST_DIAGRAM),
];

#[test]
fn reads_entries(rt: HostRuntime) -> Result<(), Fail> {
    let alloc = rt.alloc();
    let nodes = "{\"label\":[0,0]},{\"labels\":[[0,0],[0,0]]}";
    for (generators, diagrams, maps, want) in ENTRIES {
        let text = document(alloc, generators, diagrams, maps, nodes)?;
        assert_eq!(rt;
            fault_of(alloc, text.as_str()),
            want,
            "{generators} {diagrams} {maps}"
        );
    }
    Ok(())
}

#[test]
fn reads_names(rt: HostRuntime) -> Result<(), Fail> {
    let alloc = rt.alloc();
    let wrong = entry(Field::Diagrams, 0);
    let longest = "0123456789012345678901234567890123456789012345678901234567890123";
    let too_long = "01234567890123456789012345678901234567890123456789012345678901234";
    let cases = [
        (longest, None),
        (too_long, wrong),
        ("", wrong),
        ("!~", None),
        ("a b", wrong),
        ("a:b", wrong),
        ("a\\\"b", wrong),
        ("a\\\\b", wrong),
        ("a\\u0020b", wrong),
        ("\\u0041", None),
        ("a\u{7f}", wrong),
        ("a\u{e9}", wrong),
    ];
    for (name, want) in cases {
        let diagram = format!(in alloc; "{{\"name\":\"{name}\",\"root\":0}}")?;
        let text = document(alloc, "", diagram.as_str(), "", "{\"label\":[0,0]}")?;
        assert_eq!(rt; fault_of(alloc, text.as_str()), want, "{name}");
    }
    Ok(())
}

#[test]
fn counts_generators(rt: HostRuntime) -> Result<(), Fail> {
    let alloc = rt.alloc();
    let mut generators = String::from_str(alloc, "{\"name\":\"g0\"}")?;
    for number in 1usize..60_000 {
        generators.push_str(format!(in alloc; ",{{\"name\":\"g{number}\"}}")?.as_str())?;
    }
    let text = document(alloc, generators.as_str(), "", "", "")?;
    assert_eq!(rt; fault_of(alloc, text.as_str()), None);
    generators.push_str(",{\"name\":\"last\"}")?;
    let text = document(alloc, generators.as_str(), "", "", "")?;
    assert_eq!(rt;
        fault_of(alloc, text.as_str()),
        entry(Field::Generators, 60_000)
    );
    Ok(())
}

#[test]
fn reads_fields(rt: HostRuntime) -> Result<(), Fail> {
    let alloc = rt.alloc();
    let cases = [
        ("", Some(FormFault::NotJson)),
        ("{}", field(Field::Document)),
        ("[]", field(Field::Document)),
        (
            "{\"diagrams\":[],\"format\":1,\"generators\":[],\"maps\":[],\"nodes\":[],\"x\":0}",
            field(Field::Document),
        ),
        (
            "{\"diagrams\":0,\"format\":2,\"generators\":0,\"maps\":0,\"nodes\":0}",
            field(Field::Format),
        ),
        (
            "{\"diagrams\":0,\"format\":1.0,\"generators\":0,\"maps\":0,\"nodes\":0}",
            field(Field::Format),
        ),
        (
            "{\"diagrams\":0,\"format\":1,\"generators\":0,\"maps\":0,\"nodes\":{}}",
            field(Field::Nodes),
        ),
        (
            "{\"diagrams\":0,\"format\":1,\"generators\":0,\"maps\":0,\"nodes\":[0]}",
            Some(FormFault::Shape(0)),
        ),
        (
            "{\"diagrams\":0,\"format\":1,\"generators\":0,\"maps\":0,\"nodes\":[]}",
            field(Field::Generators),
        ),
        (
            "{\"diagrams\":0,\"format\":1,\"generators\":[],\"maps\":0,\"nodes\":[]}",
            field(Field::Diagrams),
        ),
        (
            "{\"diagrams\":[],\"format\":1,\"generators\":[],\"maps\":0,\"nodes\":[]}",
            field(Field::Maps),
        ),
    ];
    for (text, want) in cases {
        assert_eq!(rt; fault_of(alloc, text), want, "{text}");
    }
    for (depth, want) in [
        (127usize, field(Field::Document)),
        (128, Some(FormFault::NotJson)),
    ] {
        let mut text = String::new(alloc);
        for _ in 0..depth {
            text.push_str("[")?;
        }
        for _ in 0..depth {
            text.push_str("]")?;
        }
        assert_eq!(rt; fault_of(alloc, text.as_str()), want, "{depth}");
    }
    Ok(())
}

#[test]
fn tells_bytes_that_are_not_json(rt: HostRuntime) {
    let alloc = rt.alloc();
    for bytes in [b"\xff".as_slice(), b"\"\xff\"", b"", b"{\"diagrams\":["] {
        assert_eq!(rt; read_document(alloc, bytes).err(), Some(FormFault::NotJson));
    }
}

#[test]
fn prints_documents(rt: HostRuntime) -> Result<(), Fail> {
    let alloc = rt.alloc();
    let texts = [
        "{\"diagrams\":[],\"format\":1,\"generators\":[{\"name\":\"x\"},{\"name\":\"f\",\"source\":0,\"target\":0}],\"maps\":[],\"nodes\":[{\"label\":[0,0]}]}",
        "{\"diagrams\":[{\"name\":\"F\",\"root\":4}],\"format\":1,\"generators\":[],\"maps\":[{\"arrow\":5,\"name\":\"m\",\"source\":0,\"target\":4}],\"nodes\":[{\"label\":[0,0]},{\"label\":[1,1]},{\"labels\":[[0,0],[1,1]]},{\"labels\":[[0,0],[0,0]]},{\"bwds\":[3],\"fwds\":[2],\"regs\":[0,1],\"sings\":[1]},{\"heights\":[0],\"regs\":[2,3],\"sings\":[2]}]}",
    ];
    for text in texts {
        let document = read_document(alloc, text.as_bytes())?;
        let printed = document_text(alloc, &document)?;
        assert!(rt; printed.as_slice() == text.as_bytes(), "{text}");
    }
    Ok(())
}
