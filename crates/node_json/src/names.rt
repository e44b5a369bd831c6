ghost use Rattle.std.specs.Prelude.{◌≡◌, ◌∷◌, [], IfOk};
ghost use Rattle.std.specs.List.{list_all};
ghost use Rattle.serde_json.specs.View.{view};
ghost use Rattle.node_json.specs.Step.{Gives};
ghost use Rattle.node_json.specs.Names.{is_name_byte, is_good_name, has_name, also};
ghost use Rattle.node_json.specs.Entries.{name_in};

use crate::fault::FormFault;
use crate::parts::text_at;
use diagram_terms::MAX_NAME_LENGTH;
use serde_json::Value;
use std::collections::BTreeSet;

fn is_name_byte(byte: u8) -> bool
    ensures { result ≡ is_name_byte byte }
{
    (0x21..=0x7E).contains(&byte) && byte != b'"' && byte != b'\\' && byte != b':'
}

fn are_name_bytes(bytes: &[u8]) -> bool
    ensures { result ≡ list_all is_name_byte bytes.now }
{
    bytes.iter().all(|byte| is_name_byte(*byte))
}

/// Whether something may have the name: 1 to `MAX_NAME_LENGTH` bytes from `!` to `~`, none of them `"`,
/// `\` or `:`. It takes no memory.
pub fn is_good_name(name: &str) -> bool
    ensures { result ≡ is_good_name name.now }
{
    (1..=MAX_NAME_LENGTH).contains(&name.len()) && are_name_bytes(name.as_bytes())
}

/// The name of an entry, which is good and none of `names`, and stands among them from then on.
pub(crate) fn name_in<'v>(
    wrong: FormFault,
    names: &mut BTreeSet<&'v str>,
    value: &'v Value,
) -> Result<&'v str, FormFault>
    ensures name { Gives (λ name. name.now) result
        (name_in wrong (has_name names.old) (view value.now)) }
    ensures taken { IfOk result
        (λ name. has_name names.new ≡ also (has_name names.old) (name.now ∷ [])) }
{
    let name = text_at(wrong, value, "name")?;
    if is_good_name(name) && names.insert(name)? {
        Ok(name)
    } else {
        Err(wrong)
    }
}
