// A line read by a table of calls, and an answer printed by a table of answers.
ghost use Rattle.std.specs.Prelude.{IfSome};
ghost use Rattle.text.specs.Counts.{IsPrefixLen};

use super::fields::Fields;
use super::out::Output;
use std::io;

// An entry of a table of calls: which call it is, its name, and a letter for each of its fields, which is 1, 2, 4 or
// 8 (a figure of so many bytes), x (two hexadecimal digits), * (words up to the line's end) or . (whatever follows).
#[derive(Clone, Copy)]
pub struct Form<K> {
    pub kind: K,
    pub name: &'static str,
    pub fields: &'static str,
}

// The call of a line, and how many words it has.
#[derive(Clone, Copy)]
pub struct Call<K> {
    pub kind: K,
    pub words: usize,
}

// An answer: its place in the table, the first being 0, and its figures.
#[derive(Clone, Copy)]
pub struct Answer {
    pub form: usize,
    pub figures: [u64; 4],
}

// The entry of this name.
fn find<'a, K>(table: &'a [Form<K>], name: &[u8]) -> Option<&'a Form<K>> {
    table.iter().find(|f| f.name.as_bytes() == name)
}

// The largest figure of so many bytes.
fn most(letter: u8) -> u64 {
    match letter {
        b'1' => 0xFF,
        b'2' => 0xFFFF,
        b'4' => 0xFFFF_FFFF,
        _ => 0xFFFF_FFFF_FFFF_FFFF,
    }
}

impl<'a> Fields<'a> {
    // Reads the fields that these letters name, up to the line's end, and answers how many words they have.
    pub fn read(&mut self, letters: &str, figures: &mut [u64], words: &mut [u32]) -> Option<usize>
        ensures { IfSome result (λ n. IsPrefixLen n words.new) }
    {
        let mut places = figures.iter_mut();
        let mut count = 0;
        for &letter in letters.as_bytes() {
            match letter {
                b'.' => self.skip(),
                b'*' => count = self.words(words)?,
                b'x' => *places.next()? = self.hex(2)?,
                _ => *places.next()? = self.figure(most(letter))?,
            }
        }
        self.is_done().then_some(count)
    }
}

// Reads a line by a table of calls.
pub fn read<K: Copy>(
    table: &[Form<K>],
    line: &[u8],
    figures: &mut [u64],
    words: &mut [u32],
) -> Option<Call<K>>
    ensures { IfSome result (λ c. IsPrefixLen c.words words.new) }
{
    let mut fields = Fields::new(line);
    let form = find(table, fields.text()?)?;
    let words = fields.read(form.fields, figures, words)?;
    Some(Call {
        kind: form.kind,
        words,
    })
}

// Prints an answer by a table of answers, a text in which | ends each entry. # stands for the next figure, % for its
// last two hexadecimal digits, @ for all 16.
pub fn say(out: &mut Output<'_, impl Print>, table: &[u8], said: Answer) -> io::Result<()> {
    let mut figures = said.figures.into_iter();
    let text = table.split(|b| *b == b'|').nth(said.form).unwrap_or(b"");
    for &b in text {
        match b {
            b'#' => out.decimal(figures.next().unwrap_or(0))?,
            b'%' => out.hex(&figures.next().unwrap_or(0).to_be_bytes()[7..])?,
            b'@' => out.hex(&figures.next().unwrap_or(0).to_be_bytes())?,
            _ => out.byte(b)?,
        }
    }
    Ok(())
}
