// What is read at a place of a text: a scalar value, or damage.
ghost use Rattle.std.specs.Prelude.{◌≡◌};
ghost use Rattle.definitions.specs.Unicode.{inside};
ghost use Rattle.text.specs.Meaning.{char_meant};

#[derive(Clone, Copy)]
pub struct Scalar {
    pub value: u32,
    // how many bytes after its first belong to it: a character takes at least one byte
    pub more: usize,
}

// a character that does not end within the bytes left is damage
pub fn inside(read: Option<Scalar>, left: usize) -> Option<Scalar>
    ensures { char_meant result ≡ inside left (char_meant read) }
{
    read.filter(|scalar| scalar.more < left)
}
