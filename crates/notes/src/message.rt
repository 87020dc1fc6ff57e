// A message by its first word.
ghost use Rattle.std.specs.Prelude.{◌≡◌};
ghost use Rattle.notes.specs.Notes.{is_ours, is_on, is_off, note_of};

// Whether it is of type 2 and of the group, with note and velocity bytes at most 7F.
pub fn is_ours(group: u32, first: u32) -> bool
    ensures { result ≡ is_ours group first }
{
    first / 0x1000_0000 == 2
        && first / 0x100_0000 % 0x10 == group
        && first / 0x100 % 0x100 <= 0x7F
        && first % 0x100 <= 0x7F
}

// Status 9 with velocity above 0.
pub fn is_on(first: u32) -> bool
    ensures { result ≡ is_on first }
{
    first / 0x10_0000 % 0x10 == 9 && 0 < first % 0x100
}

// Status 8, or 9 with velocity 0.
pub fn is_off(first: u32) -> bool
    ensures { result ≡ is_off first }
{
    let status = first / 0x10_0000 % 0x10;
    status == 8 || status == 9 && first % 0x100 == 0
}

// Its channel times 128 plus its note byte.
pub fn note_of(first: u32) -> usize
    ensures { result ≡ note_of first }
{
    (first / 0x1_0000 % 0x10 * 128 + first / 0x100 % 0x100) as usize
}
