// A scalar value as UTF-8.
ghost use Rattle.std.specs.Prelude.{◌≡◌, ◌+◌, ◌≤◌, ◌<◌, length};
ghost use Rattle.std.proofs.lemmas.List.Edits.{sets};
ghost use Rattle.definitions.specs.Unicode.{utf8_of};

// how many bytes it takes
#[tactic(auto, unfolding(definitions::specs::Unicode::utf8_of))]
pub fn utf8_width(value: u32) -> usize
    ensures { result ≡ length (utf8_of value) }
{
    if value < 0x80 {
        1
    } else if value < 0x800 {
        2
    } else if value < 0x10000 {
        3
    } else {
        4
    }
}

// For each length a function: they differ in every line, so a common one would need a loop and a table.
fn put_two(out: &mut [u8], at: usize, value: u32)
    requires { (0x80 ≤ value) × (value < 0x800) × (at + 2 ≤ length out.old) }
    ensures { out.new ≡ sets out.old at (utf8_of value) }
{
    out[at] = (0xC0 + value / 64) as u8;
    out[at + 1] = (0x80 + value % 64) as u8;
}

fn put_three(out: &mut [u8], at: usize, value: u32)
    requires { (0x800 ≤ value) × (value < 0x10000) × (at + 3 ≤ length out.old) }
    ensures { out.new ≡ sets out.old at (utf8_of value) }
{
    out[at] = (0xE0 + value / 4096) as u8;
    out[at + 1] = (0x80 + value / 64 % 64) as u8;
    out[at + 2] = (0x80 + value % 64) as u8;
}

fn put_four(out: &mut [u8], at: usize, value: u32)
    requires { (0x10000 ≤ value) × (value < 0x110000) × (at + 4 ≤ length out.old) }
    ensures { out.new ≡ sets out.old at (utf8_of value) }
{
    out[at] = (0xF0 + value / 262144) as u8;
    out[at + 1] = (0x80 + value / 4096 % 64) as u8;
    out[at + 2] = (0x80 + value / 64 % 64) as u8;
    out[at + 3] = (0x80 + value % 64) as u8;
}

// writes it at a place, and gives the place after it
pub fn put_utf8(out: &mut [u8], at: usize, value: u32) -> usize
    requires { (value < 0x110000) × (at + length (utf8_of value) ≤ length out.old) }
    ensures { (result ≡ at + length (utf8_of value)) × (out.new ≡ sets out.old at (utf8_of value)) }
{
    if value < 0x80 {
        out[at] = value as u8;
        at + 1
    } else if value < 0x800 {
        put_two(out, at, value);
        at + 2
    } else if value < 0x10000 {
        put_three(out, at, value);
        at + 3
    } else {
        put_four(out, at, value);
        at + 4
    }
}
