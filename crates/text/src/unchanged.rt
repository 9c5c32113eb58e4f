// Bytes that are written as they are.
ghost use Rattle.std.specs.Prelude.{◌≡◌, ◌≤◌, length};
ghost use Rattle.std.proofs.lemmas.List.Edits.{sets};
ghost use Rattle.definitions.specs.Unicode.{written_text};
ghost use Rattle.text.specs.Meaning.{wrote};
ghost use Rattle.text.specs.Parts.{as_is};

use crate::answer::TextWritten;
use refusals::Refusal;

// By index: of what an iterator over `out` is given nothing is known here, and the library's copy would be memcpy, which the
// archive may not import.
fn copy(from: &[u8], out: &mut [u8])
    requires { length from.now ≤ length out.old }
    ensures { out.new ≡ sets out.old 0 from.now }
{
    for (at, byte) in from.iter().enumerate() {
        out[at] = *byte;
    }
}

pub fn write_unchanged(text: &[u8], damaged: bool, out: &mut [u8]) -> Result<TextWritten, Refusal>
    ensures { wrote result out.new ≡ written_text out.old (as_is text.now damaged) }
{
    let count = text.len() as u64;
    if out.len() < text.len() {
        return Err(Refusal::NoRoom(count));
    }
    copy(text, out);
    Ok(TextWritten { count, damaged })
}
