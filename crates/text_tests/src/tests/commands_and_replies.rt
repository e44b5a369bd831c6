use diagram_terms::{End, Fault, Height, Items, Label, Node, Place, Step, Text};
use std::alloc::Global;
use std::test::Fail;
use workspace_json::{
    Command, Document, Field, FormFault, GeneratorEntry, Refusal, Reply, Word, form_text, path_of,
    read_command, reply_text,
};

fn look(alloc: Global, name: &str, at: Option<Place>) -> Result<Reply, Fail> {
    Ok(Reply::Look {
        dim: 1,
        length: 2,
        name: Text::from_str(alloc, name)?,
        at,
    })
}

#[test]
fn writes_lines(rt: HostRuntime) -> Result<(), Fail> {
    let alloc = rt.alloc();
    let text = reply_text(alloc, &look(alloc, "a\"\\\u{1}\u{7f}\u{e9}", None)?)?;
    assert!(rt;
        text.as_slice()
            == "{\"dim\":1,\"length\":2,\"name\":\"a\\\"\\\\\\u0001\u{7f}\u{e9}\",\"ok\":\"look\"}".as_bytes()
    );
    let steps = [
        Step::SourceEnd,
        Step::R(10),
        Step::S(0),
        Step::F(3),
        Step::B(4),
    ];
    let place = Place {
        steps: Items::from_slice(alloc, &steps)?,
        end: End::Square(7),
    };
    let text = reply_text(alloc, &look(alloc, "D", Some(place))?)?;
    assert!(rt;
        text.as_slice()
            == b"{\"at\":\"source r10 s0 f3 b4 q7\",\"dim\":1,\"length\":2,\"name\":\"D\",\"no\":\"look\"}".as_slice()
    );
    let text = form_text(
        alloc,
        &FormFault::Form {
            field: Field::Diagrams,
            entry: Some(2),
        },
    )?;
    assert!(rt;
        text.as_slice() == b"{\"entry\":2,\"field\":\"diagrams\",\"refused\":\"Form\"}".as_slice()
    );
    Ok(())
}

#[test]
fn writes_answers(rt: HostRuntime) -> Result<(), Fail> {
    let alloc = rt.alloc();
    let mut nodes = Items::new(alloc);
    nodes.push(Node::Label(Label { number: 3, dim: 0 }))?;
    nodes.push(Node::Diagram {
        regs: Items::from_slice(alloc, &[0])?,
        sings: Items::new(alloc),
        fwds: Items::new(alloc),
        bwds: Items::new(alloc),
    })?;
    let text = reply_text(alloc, &Reply::Slice { nodes, root: 1 })?;
    assert!(rt;
        text.as_slice()
            == b"{\"nodes\":[{\"label\":[3,0]},{\"bwds\":[],\"fwds\":[],\"regs\":[0],\"sings\":[]}],\"ok\":\"slice\",\"root\":1}".as_slice()
    );
    let mut nodes = Items::new(alloc);
    nodes.push(Node::Label(Label { number: 3, dim: 0 }))?;
    let normal = Reply::Normalise {
        arrow: 2,
        factors: Items::from_slice(alloc, &[2, 10])?,
        name: Text::from_str(alloc, "n")?,
        nodes,
        source: 0,
    };
    let text = reply_text(alloc, &normal)?;
    assert!(rt;
        text.as_slice()
            == b"{\"arrow\":2,\"factors\":[2,10],\"name\":\"n\",\"nodes\":[{\"label\":[3,0]}],\"ok\":\"normalise\",\"source\":0}".as_slice()
    );
    let name = Text::from_str(alloc, "a\"")?;
    let text = reply_text(alloc, &Reply::Refused(Refusal::Unknown { name }))?;
    assert!(rt; text.as_slice() == b"{\"name\":\"a\\\"\",\"refused\":\"Unknown\"}".as_slice());
    let text = reply_text(alloc, &Reply::Refused(Refusal::NoHeight { step: 2 }))?;
    assert!(rt; text.as_slice() == b"{\"refused\":\"NoHeight\",\"step\":2}".as_slice());
    Ok(())
}

fn named(alloc: Global, name: &str) -> Result<Text, Fail> {
    Ok(Text::from_str(alloc, name)?)
}

/// The line of the reply is this one.
fn is_written(alloc: Global, reply: Reply, want: &str) -> Result<bool, Fail> {
    Ok(reply_text(alloc, &reply)?.as_slice() == want.as_bytes())
}

#[test]
fn writes_changes(rt: HostRuntime) -> Result<(), Fail> {
    let alloc = rt.alloc();
    let generator = Reply::Generator {
        dim: 1,
        name: named(alloc, "f")?,
        number: 4_294_967_295,
    };
    let want = "{\"dim\":1,\"name\":\"f\",\"number\":4294967295,\"ok\":\"generator\"}";
    assert!(rt; is_written(alloc, generator, want)?);
    let identity = Reply::Stored {
        dim: 1,
        length: 0,
        name: named(alloc, "ix")?,
        word: Word::Identity,
    };
    let want = "{\"dim\":1,\"length\":0,\"name\":\"ix\",\"ok\":\"identity\"}";
    assert!(rt; is_written(alloc, identity, want)?);
    let boundary = Reply::Stored {
        dim: 0,
        length: 2,
        name: named(alloc, "b")?,
        word: Word::Boundary,
    };
    let want = "{\"dim\":0,\"length\":2,\"name\":\"b\",\"ok\":\"boundary\"}";
    assert!(rt; is_written(alloc, boundary, want)?);
    let dropped = Reply::Named {
        name: named(alloc, "s")?,
        word: Word::Drop,
    };
    assert!(rt; is_written(alloc, dropped, "{\"name\":\"s\",\"ok\":\"drop\"}")?);
    let brought = Reply::Named {
        name: named(alloc, "m")?,
        word: Word::Bring,
    };
    assert!(rt; is_written(alloc, brought, "{\"name\":\"m\",\"ok\":\"bring\"}")?);
    let composed = Reply::Named {
        name: named(alloc, "gf")?,
        word: Word::Compose,
    };
    assert!(rt; is_written(alloc, composed, "{\"name\":\"gf\",\"ok\":\"compose\"}")?);
    assert!(rt; is_written(alloc, Reply::Undo, "{\"ok\":\"undo\"}")?);
    assert!(rt; is_written(alloc, Reply::Redo, "{\"ok\":\"redo\"}")?);
    Ok(())
}

#[test]
fn writes_what_a_session_holds(rt: HostRuntime) -> Result<(), Fail> {
    let alloc = rt.alloc();
    let want = "{\"ok\":\"equal\",\"value\":true}";
    assert!(rt; is_written(alloc, Reply::Equal { value: true }, want)?);
    let want = "{\"ok\":\"equal\",\"value\":false}";
    assert!(rt; is_written(alloc, Reply::Equal { value: false }, want)?);
    let stats = Reply::Stats {
        arrows: 1,
        diagrams: 3,
        generators: 4,
        maps: 0,
        named: 2,
    };
    let want =
        "{\"arrows\":1,\"diagrams\":3,\"generators\":4,\"maps\":0,\"named\":2,\"ok\":\"stats\"}";
    assert!(rt; is_written(alloc, stats, want)?);
    let mut generators = Items::new(alloc);
    generators.push(GeneratorEntry {
        name: named(alloc, "x")?,
        boundary: None,
    })?;
    let document = Document {
        generators,
        diagrams: Items::new(alloc),
        maps: Items::new(alloc),
        nodes: Items::new(alloc),
    };
    let want =
        "{\"document\":{\"diagrams\":[],\"format\":1,\"generators\":[{\"name\":\"x\"}],\"maps\":[],\"nodes\":[]},\"ok\":\"save\"}";
    assert!(rt; is_written(alloc, Reply::Save { document }, want)?);
    Ok(())
}

fn is_refused(alloc: Global, refusal: Refusal, want: &str) -> Result<bool, Fail> {
    is_written(alloc, Reply::Refused(refusal), want)
}

#[test]
fn writes_refusals(rt: HostRuntime) -> Result<(), Fail> {
    let alloc = rt.alloc();
    assert!(rt; is_refused(alloc, Refusal::NameBad, "{\"refused\":\"NameBad\"}")?);
    assert!(rt; is_refused(alloc, Refusal::NameTaken, "{\"refused\":\"NameTaken\"}")?);
    let name = named(alloc, "z")?;
    let want = "{\"name\":\"z\",\"refused\":\"Unknown\"}";
    assert!(rt; is_refused(alloc, Refusal::Unknown { name }, want)?);
    assert!(rt; is_refused(alloc, Refusal::DimDiffers, "{\"refused\":\"DimDiffers\"}")?);
    assert!(rt; is_refused(alloc, Refusal::NotParallel, "{\"refused\":\"NotParallel\"}")?);
    assert!(rt; is_refused(alloc, Refusal::DimLimit, "{\"refused\":\"DimLimit\"}")?);
    assert!(rt; is_refused(alloc, Refusal::CountLimit, "{\"refused\":\"CountLimit\"}")?);
    assert!(rt; is_refused(alloc, Refusal::EndsDiffer, "{\"refused\":\"EndsDiffer\"}")?);
    let want = "{\"refused\":\"NoHeight\",\"step\":0}";
    assert!(rt; is_refused(alloc, Refusal::NoHeight { step: 0 }, want)?);
    let want = "{\"refused\":\"NothingToUndo\"}";
    assert!(rt; is_refused(alloc, Refusal::NothingToUndo, want)?);
    let want = "{\"refused\":\"NothingToRedo\"}";
    assert!(rt; is_refused(alloc, Refusal::NothingToRedo, want)?);
    Ok(())
}

#[test]
fn writes_faults(rt: HostRuntime) -> Result<(), Fail> {
    let alloc = rt.alloc();
    let place = Place {
        steps: Items::from_slice(alloc, &[Step::TargetEnd, Step::F(0)])?,
        end: End::Ends,
    };
    let square = Refusal::IllTyped(Fault::SquareAt(place));
    let want = "{\"at\":\"target f0 ends\",\"fault\":\"square\",\"refused\":\"IllTyped\"}";
    assert!(rt; is_refused(alloc, square, want)?);
    let leg = Items::from_slice(alloc, &[Step::S(2), Step::B(10)])?;
    let loose = Refusal::IllTyped(Fault::LooseAt(leg));
    let want = "{\"at\":\"s2 b10\",\"fault\":\"loose\",\"refused\":\"IllTyped\"}";
    assert!(rt; is_refused(alloc, loose, want)?);
    let three = Items::from_slice(alloc, &[Height::R(0), Height::S(1), Height::R(12)])?;
    let label = Refusal::IllTyped(Fault::LabelAt(three));
    let want = "{\"at\":\"r0 s1 r12\",\"fault\":\"label\",\"refused\":\"IllTyped\"}";
    assert!(rt; is_refused(alloc, label, want)?);
    let two = Items::from_slice(alloc, &[Height::S(0), Height::S(0)])?;
    let of_two = Refusal::IllTyped(Fault::TypeAt(two));
    let want = "{\"at\":\"s0 s0\",\"fault\":\"type\",\"refused\":\"IllTyped\"}";
    assert!(rt; is_refused(alloc, of_two, want)?);
    let of_none = Refusal::IllTyped(Fault::TypeAt(Items::new(alloc)));
    let want = "{\"at\":\"\",\"fault\":\"type\",\"refused\":\"IllTyped\"}";
    assert!(rt; is_refused(alloc, of_none, want)?);
    Ok(())
}

#[test]
fn reads_paths(rt: HostRuntime) -> Result<(), Fail> {
    let alloc = rt.alloc();
    let one = [Height::R(12)];
    let three = [Height::S(0), Height::R(1), Height::S(4_294_967_295)];
    for (word, want) in [
        (".", [].as_slice()),
        ("r12", one.as_slice()),
        ("s0,r1,s4294967295", three.as_slice()),
    ] {
        let path = path_of(alloc, word)?.ok_or("no path")?;
        assert!(rt; path.as_slice() == want, "{word}");
    }
    for word in [
        "",
        "s",
        "s01",
        "s0,",
        ",s0",
        "s0,,r1",
        ".,s0",
        "t0",
        "s-1",
        "s+1",
        "s4294967296",
        "s18446744073709551616",
        "s0 ",
        "S0",
        "s\u{660}",
    ] {
        assert!(rt; path_of(alloc, word)?.is_none(), "{word}");
    }
    Ok(())
}

#[test]
fn reads_commands(rt: HostRuntime) -> Result<(), Fail> {
    let alloc = rt.alloc();
    for (line, want) in [
        (
            "{\"do\":\"generator\",\"name\":\"x\"}",
            "Generator { name: Text { text: \"x\" }, source: None, target: None }",
        ),
        (
            "{\"do\":\"generator\",\"name\":\"f\",\"source\":\"x\",\"target\":\"y\"}",
            "Generator { name: Text { text: \"f\" }, source: Some(Text { text: \"x\" }), target: Some(Text { text: \"y\" }) }",
        ),
        (
            "{\"of\":\"f\",\"name\":\"\",\"do\":\"identity\"}",
            "Identity { name: Text { text: \"\" }, of: Text { text: \"f\" } }",
        ),
        (
            "{\"do\":\"boundary\",\"name\":\"b\",\"of\":\"f\",\"side\":\"target\"}",
            "Boundary { name: Text { text: \"b\" }, of: Text { text: \"f\" }, side: Target }",
        ),
        (
            "{\"do\":\"equal\",\"one\":\"x\",\"two\":\"\\u0079\"}",
            "Equal { one: Text { text: \"x\" }, two: Text { text: \"y\" } }",
        ),
        (
            "{\"do\":\"compose\",\"then\":\"g\",\"first\":\"f\",\"name\":\"gf\"}",
            "Compose { name: Text { text: \"gf\" }, first: Text { text: \"f\" }, then_: Text { text: \"g\" } }",
        ),
        (
            "{\"do\":\"normalise\",\"legs\":[],\"name\":\"n\",\"of\":\"f:source\"}",
            "Normalise { name: Text { text: \"n\" }, of: Text { text: \"f:source\" }, legs: Items { items: [] } }",
        ),
        (
            "{\"do\":\"normalise\",\"of\":\"f\",\"name\":\"n\",\"legs\":[\"L\",\"\\u004d\"]}",
            "Normalise { name: Text { text: \"n\" }, of: Text { text: \"f\" }, legs: Items { items: [Text { text: \"L\" }, Text { text: \"M\" }] } }",
        ),
        (
            "{\"do\":\"drop\",\"name\":\"a b\"}",
            "Drop { name: Text { text: \"a b\" } }",
        ),
        ("{\"do\":\"stats\"}", "Stats"),
        ("{\"do\":\"save\"}", "Save"),
        (" { \"do\" : \"undo\" } ", "Undo"),
        ("{\"do\":\"redo\"}", "Redo"),
    ] {
        let command = read_command(alloc, line.as_bytes())?;
        let text = format!(in alloc; "{command:?}")?;
        assert!(rt; text.as_str() == want, "{line}");
    }
    let command = read_command(
        alloc,
        b"{\"do\":\"slice\",\"of\":\"f\",\"path\":[\"s0\",\"r12\"]}",
    )?;
    let Command::Slice { of, path } = &command else {
        return Err("no slice".into());
    };
    assert!(rt; of.as_str() == "f");
    assert!(rt; path.as_slice() == [Height::S(0), Height::R(12)].as_slice());
    Ok(())
}

/// A line that brings the arrow from one label to another, under these places.
fn bring(alloc: Global, nodes: &str, source: u8, target: u8, arrow: u8) -> Result<String, Fail> {
    Ok(format!(in alloc;
        "{{\"arrow\":{arrow},\"do\":\"bring\",\"name\":\"m\",\"nodes\":[{nodes}],\"source\":{source},\"target\":{target}}}"
    )?)
}

const ARROW: &str = "{\"label\":[7,0]},{\"label\":[8,1]},{\"labels\":[[7,0],[8,1]]}";

#[test]
fn brings_maps(rt: HostRuntime) -> Result<(), Fail> {
    let alloc = rt.alloc();
    let line = bring(alloc, ARROW, 0, 1, 2)?;
    let Command::Bring {
        name,
        nodes,
        source,
        target,
        arrow,
    } = read_command(alloc, line.as_bytes())?
    else {
        return Err("no bring".into());
    };
    assert!(rt; name.as_str() == "m");
    assert_eq!(rt; nodes.len(), 3);
    assert_eq!(rt; (source, target, arrow), (0, 1, 2));
    let field = |field: Field| Some(FormFault::Form { field, entry: None });
    for (nodes, source, target, arrow, want) in [
        (ARROW, 2, 1, 2, field(Field::Source)),
        (ARROW, 0, 3, 2, field(Field::Target)),
        (ARROW, 0, 1, 1, field(Field::Arrow)),
        ("{\"label\":[7]}", 0, 1, 2, Some(FormFault::Shape(0))),
        ("{\"label\":[60000,0]}", 0, 1, 2, Some(FormFault::Label(0))),
    ] {
        let line = bring(alloc, nodes, source, target, arrow)?;
        let fault = read_command(alloc, line.as_bytes()).err();
        assert_eq!(rt; fault, want, "{line}");
    }
    Ok(())
}

#[test]
fn refuses_commands(rt: HostRuntime) -> Result<(), Fail> {
    let alloc = rt.alloc();
    let field = |field: Field| Some(FormFault::Form { field, entry: None });
    for (line, want) in [
        ("", Some(FormFault::NotJson)),
        ("{\"do\":\"undo\"", Some(FormFault::NotJson)),
        ("\"undo\"", field(Field::Command)),
        ("[]", field(Field::Command)),
        ("{}", field(Field::Do)),
        ("{\"do\":[\"undo\"]}", field(Field::Do)),
        ("{\"do\":\"Undo\",\"name\":1}", field(Field::Do)),
        ("{\"do\":\"undo\",\"name\":1}", field(Field::Command)),
        ("{\"do\":\"generator\"}", field(Field::Command)),
        (
            "{\"do\":\"generator\",\"name\":\"f\",\"target\":\"x\"}",
            field(Field::Command),
        ),
    ] {
        let fault = read_command(alloc, line.as_bytes()).err();
        assert_eq!(rt; fault, want, "{line}");
    }
    Ok(())
}

#[test]
fn refuses_parts_of_commands(rt: HostRuntime) -> Result<(), Fail> {
    let alloc = rt.alloc();
    let field = |field: Field| Some(FormFault::Form { field, entry: None });
    for (line, want) in [
        ("{\"do\":\"drop\",\"name\":1}", field(Field::Name)),
        (
            "{\"do\":\"generator\",\"name\":\"f\",\"source\":1,\"target\":2}",
            field(Field::Source),
        ),
        (
            "{\"do\":\"generator\",\"name\":\"f\",\"source\":\"x\",\"target\":2}",
            field(Field::Target),
        ),
        (
            "{\"do\":\"identity\",\"name\":\"i\",\"of\":null}",
            field(Field::Of),
        ),
        (
            "{\"do\":\"boundary\",\"name\":\"b\",\"of\":\"f\",\"side\":\"sources\"}",
            field(Field::Side),
        ),
        (
            "{\"do\":\"slice\",\"of\":\"f\",\"path\":\"s0\"}",
            field(Field::Path),
        ),
        (
            "{\"do\":\"slice\",\"of\":\"f\",\"path\":[\"s0\",\"s01\"]}",
            field(Field::Path),
        ),
        (
            "{\"do\":\"equal\",\"one\":{},\"two\":{}}",
            field(Field::One),
        ),
        (
            "{\"do\":\"equal\",\"one\":\"x\",\"two\":{}}",
            field(Field::Two),
        ),
        (
            "{\"do\":\"compose\",\"name\":\"c\",\"first\":1,\"then\":2}",
            field(Field::First),
        ),
        (
            "{\"do\":\"compose\",\"name\":\"c\",\"first\":\"f\",\"then\":2}",
            field(Field::Then),
        ),
        (
            "{\"do\":\"normalise\",\"name\":\"n\",\"of\":\"f\"}",
            field(Field::Command),
        ),
        (
            "{\"do\":\"normalise\",\"name\":\"n\",\"of\":1,\"legs\":1}",
            field(Field::Of),
        ),
        (
            "{\"do\":\"normalise\",\"name\":\"n\",\"of\":\"f\",\"legs\":\"L\"}",
            field(Field::Legs),
        ),
        (
            "{\"do\":\"normalise\",\"name\":\"n\",\"of\":\"f\",\"legs\":[\"L\",0]}",
            field(Field::Legs),
        ),
    ] {
        let fault = read_command(alloc, line.as_bytes()).err();
        assert_eq!(rt; fault, want, "{line}");
    }
    Ok(())
}
