use super::check_run;
use hom_run::Status;
use std::alloc::{AllocError, Global};
use std::process::Abort;
use std::test::Fail;

/// A document with a number in the place of `#`; the fault of one that is not written as a whole number of 64 bits is, and
/// that of one that is too great.
type Place = (&'static str, &'static str, &'static str);

const PLACES: [Place; 20] = [
    (
        "{\"diagrams\":[],\"format\":#,\"generators\":[],\"maps\":[],\"nodes\":[]}",
        "{\"field\":\"format\",\"refused\":\"Form\"}\n",
        "{\"field\":\"format\",\"refused\":\"Form\"}\n",
    ),
    (
        "{\"diagrams\":[],\"format\":1,\"generators\":[],\"maps\":[],\"nodes\":[{\"label\":[#,0]}]}",
        "{\"node\":0,\"refused\":\"Shape\"}\n",
        "{\"node\":0,\"refused\":\"Label\"}\n",
    ),
    (
        "{\"diagrams\":[],\"format\":1,\"generators\":[],\"maps\":[],\"nodes\":[{\"label\":[0,#]}]}",
        "{\"node\":0,\"refused\":\"Shape\"}\n",
        "{\"node\":0,\"refused\":\"Label\"}\n",
    ),
    (
        "{\"diagrams\":[],\"format\":1,\"generators\":[],\"maps\":[],\"nodes\":[{\"labels\":[[#,0],[0,0]]}]}",
        "{\"node\":0,\"refused\":\"Shape\"}\n",
        "{\"node\":0,\"refused\":\"Label\"}\n",
    ),
    (
        "{\"diagrams\":[],\"format\":1,\"generators\":[],\"maps\":[],\"nodes\":[{\"labels\":[[0,#],[0,0]]}]}",
        "{\"node\":0,\"refused\":\"Shape\"}\n",
        "{\"node\":0,\"refused\":\"Label\"}\n",
    ),
    (
        "{\"diagrams\":[],\"format\":1,\"generators\":[],\"maps\":[],\"nodes\":[{\"labels\":[[0,0],[#,0]]}]}",
        "{\"node\":0,\"refused\":\"Shape\"}\n",
        "{\"node\":0,\"refused\":\"Label\"}\n",
    ),
    (
        "{\"diagrams\":[],\"format\":1,\"generators\":[],\"maps\":[],\"nodes\":[{\"labels\":[[0,0],[0,#]]}]}",
        "{\"node\":0,\"refused\":\"Shape\"}\n",
        "{\"node\":0,\"refused\":\"Label\"}\n",
    ),
    (
        "{\"diagrams\":[],\"format\":1,\"generators\":[],\"maps\":[],\"nodes\":[{\"label\":[0,0]},{\"labels\":[[0,0],[0,0]]},{\"bwds\":[#],\"fwds\":[1],\"regs\":[0,0],\"sings\":[0]}]}",
        "{\"node\":2,\"refused\":\"Shape\"}\n",
        "{\"node\":2,\"refused\":\"Early\"}\n",
    ),
    (
        "{\"diagrams\":[],\"format\":1,\"generators\":[],\"maps\":[],\"nodes\":[{\"label\":[0,0]},{\"labels\":[[0,0],[0,0]]},{\"bwds\":[1],\"fwds\":[#],\"regs\":[0,0],\"sings\":[0]}]}",
        "{\"node\":2,\"refused\":\"Shape\"}\n",
        "{\"node\":2,\"refused\":\"Early\"}\n",
    ),
    (
        "{\"diagrams\":[],\"format\":1,\"generators\":[],\"maps\":[],\"nodes\":[{\"label\":[0,0]},{\"labels\":[[0,0],[0,0]]},{\"bwds\":[1],\"fwds\":[1],\"regs\":[0,#],\"sings\":[0]}]}",
        "{\"node\":2,\"refused\":\"Shape\"}\n",
        "{\"node\":2,\"refused\":\"Early\"}\n",
    ),
    (
        "{\"diagrams\":[],\"format\":1,\"generators\":[],\"maps\":[],\"nodes\":[{\"label\":[0,0]},{\"labels\":[[0,0],[0,0]]},{\"bwds\":[1],\"fwds\":[1],\"regs\":[0,0],\"sings\":[#]}]}",
        "{\"node\":2,\"refused\":\"Shape\"}\n",
        "{\"node\":2,\"refused\":\"Early\"}\n",
    ),
    (
        "{\"diagrams\":[],\"format\":1,\"generators\":[],\"maps\":[],\"nodes\":[{\"labels\":[[0,0],[0,0]]},{\"heights\":[#],\"regs\":[0,0],\"sings\":[0]}]}",
        "{\"node\":1,\"refused\":\"Shape\"}\n",
        "{\"node\":1,\"refused\":\"Shape\"}\n",
    ),
    (
        "{\"diagrams\":[],\"format\":1,\"generators\":[],\"maps\":[],\"nodes\":[{\"labels\":[[0,0],[0,0]]},{\"heights\":[0],\"regs\":[0,#],\"sings\":[0]}]}",
        "{\"node\":1,\"refused\":\"Shape\"}\n",
        "{\"node\":1,\"refused\":\"Early\"}\n",
    ),
    (
        "{\"diagrams\":[],\"format\":1,\"generators\":[],\"maps\":[],\"nodes\":[{\"labels\":[[0,0],[0,0]]},{\"heights\":[0],\"regs\":[0,0],\"sings\":[#]}]}",
        "{\"node\":1,\"refused\":\"Shape\"}\n",
        "{\"node\":1,\"refused\":\"Early\"}\n",
    ),
    (
        "{\"diagrams\":[],\"format\":1,\"generators\":[{\"name\":\"f\",\"source\":#,\"target\":0}],\"maps\":[],\"nodes\":[{\"label\":[0,0]}]}",
        "{\"entry\":0,\"field\":\"generators\",\"refused\":\"Form\"}\n",
        "{\"entry\":0,\"field\":\"generators\",\"refused\":\"Form\"}\n",
    ),
    (
        "{\"diagrams\":[],\"format\":1,\"generators\":[{\"name\":\"f\",\"source\":0,\"target\":#}],\"maps\":[],\"nodes\":[{\"label\":[0,0]}]}",
        "{\"entry\":0,\"field\":\"generators\",\"refused\":\"Form\"}\n",
        "{\"entry\":0,\"field\":\"generators\",\"refused\":\"Form\"}\n",
    ),
    (
        "{\"diagrams\":[{\"name\":\"A\",\"root\":#}],\"format\":1,\"generators\":[],\"maps\":[],\"nodes\":[{\"label\":[0,0]}]}",
        "{\"entry\":0,\"field\":\"diagrams\",\"refused\":\"Form\"}\n",
        "{\"entry\":0,\"field\":\"diagrams\",\"refused\":\"Form\"}\n",
    ),
    (
        "{\"diagrams\":[],\"format\":1,\"generators\":[],\"maps\":[{\"arrow\":#,\"name\":\"m\",\"source\":0,\"target\":0}],\"nodes\":[{\"label\":[0,0]},{\"labels\":[[0,0],[0,0]]}]}",
        "{\"entry\":0,\"field\":\"maps\",\"refused\":\"Form\"}\n",
        "{\"entry\":0,\"field\":\"maps\",\"refused\":\"Form\"}\n",
    ),
    (
        "{\"diagrams\":[],\"format\":1,\"generators\":[],\"maps\":[{\"arrow\":1,\"name\":\"m\",\"source\":#,\"target\":0}],\"nodes\":[{\"label\":[0,0]},{\"labels\":[[0,0],[0,0]]}]}",
        "{\"entry\":0,\"field\":\"maps\",\"refused\":\"Form\"}\n",
        "{\"entry\":0,\"field\":\"maps\",\"refused\":\"Form\"}\n",
    ),
    (
        "{\"diagrams\":[],\"format\":1,\"generators\":[],\"maps\":[{\"arrow\":1,\"name\":\"m\",\"source\":0,\"target\":#}],\"nodes\":[{\"label\":[0,0]},{\"labels\":[[0,0],[0,0]]}]}",
        "{\"entry\":0,\"field\":\"maps\",\"refused\":\"Form\"}\n",
        "{\"entry\":0,\"field\":\"maps\",\"refused\":\"Form\"}\n",
    ),
];

/// The numbers that are not written as a whole number of 64 bits is.
const OTHERWISE: [&str; 4] = ["1.0", "1e0", "-0", "18446744073709551616"];

/// Those that are too great.
const TOO_GREAT: [&str; 2] = ["18446744073709551615", "9007199254740993"];

/// The document with the number in its place.
fn filled(alloc: Global, document: &str, number: &str) -> Result<Vec<u8>, AllocError> {
    let mut bytes = Vec::new(alloc);
    for byte in document.as_bytes() {
        if *byte == b'#' {
            bytes.extend_from_slice(number.as_bytes())?;
        } else {
            bytes.push(*byte)?;
        }
    }
    Ok(bytes)
}

/// Looks at the document with each of the numbers in its place.
fn check_numbers(
    rt: &(impl Abort + AllocGlobal),
    document: &str,
    numbers: &[&str],
    want: &str,
) -> Result<(), Fail> {
    for number in numbers {
        let bytes = filled(rt.alloc(), document, number)?;
        check_run(rt, "look", &bytes, Status::Form, want)?;
    }
    Ok(())
}

/// Looks at each document with each of the numbers.
fn check_places(rt: &(impl Abort + AllocGlobal), places: &[Place]) -> Result<(), Fail> {
    for (document, otherwise, too_great) in places {
        check_numbers(rt, document, &OTHERWISE, otherwise)?;
        check_numbers(rt, document, &TOO_GREAT, too_great)?;
    }
    Ok(())
}

#[test]
fn takes_whole_numbers_alone(rt: HostRuntime) -> Result<(), Fail> {
    check_places(&rt, &PLACES)
}
