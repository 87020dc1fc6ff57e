// The fields of a line, read one after the other. A space stands between two fields; so two spaces have an empty
// field between them, and a line that ends with a space has one at its end.
//
//   name field field
//        |
//        rest
ghost use Rattle.std.specs.Prelude.{◌≡◌, ◌+◌, ◌≤◌, ◌<◌, ◌↔◌, length, IfSome, IsNone, IsTrue, None, Some};
ghost use Rattle.text.specs.Counts.{IsPrefixLen};
ghost use Rattle.text.specs.Lines.{left};

// What is left of a line: the fields that were not read. A reading takes one, and answers None where there is none,
// or none of its kind.
#[derive(Clone, Copy)]
pub struct Fields<'a> {
    pub rest: Option<&'a [u8]>,
}

impl<'a> Fields<'a> {
    pub fn new(line: &'a [u8]) -> Self
        ensures { result.rest ≡ Some line.entry }
    {
        Fields { rest: Some(line) }
    }

    // Every field was read.
    pub fn is_done(&self) -> bool
        ensures { IsTrue result ↔ IsNone self.now.rest }
    {
        self.rest.is_none()
    }

    // The next field as it stands.
    #[tactic(auto, unfolding(crate::specs::Lines::left_of))]
    pub fn text(&mut self) -> Option<&'a [u8]>
        ensures moves { IfSome result (λ f. left self.new + 1 + length f.now ≡ left self.old) }
        ensures none { IsNone result → IsNone self.old.rest }
    {
        let rest = self.rest?;
        match rest.iter().position(|b| *b == b' ') {
            Some(end) => {
                self.rest = Some(&rest[end + 1..]);
                Some(&rest[..end])
            }
            None => {
                self.rest = None;
                Some(rest)
            }
        }
    }

    // What is left, whatever it is.
    pub fn skip(&mut self)
        ensures { self.new.rest ≡ None }
    {
        self.rest = None;
    }

    // A decimal figure, at most `most`.
    pub fn figure(&mut self, most: u64) -> Option<u64>
        ensures { IfSome result (λ n. n ≤ most) }
    {
        let field = self.text()?;
        if field.is_empty() {
            return None;
        }
        number(field, 10, most)
    }

    // A field of so many hexadecimal digits, at most 8.
    pub fn hex(&mut self, width: usize) -> Option<u64>
        ensures below { IfSome result (λ n. n < 0x1_0000_0000) }
        ensures moves { IfSome result (λ _. left self.new + 1 + width ≡ left self.old) }
    {
        let field = self.text()?;
        if field.len() != width {
            return None;
        }
        number(field, 16, 0xFFFF_FFFF)
    }

    // What is left, each field by this reading, as many as there is room for.
    pub fn fill<T: Copy, F: FnMut(&mut Fields<'a>) -> Option<T>>(
        &mut self,
        into: &mut [T],
        mut one: F,
    ) -> Option<usize>
        requires { F.IsAlwaysCallable one }
        ensures { IfSome result (λ n. IsPrefixLen n into.new) }
    {
        let mut n = 0;
        // A `while`: the line ends it, or the room, and each reading says how far it came.
        while !self.is_done() {
            *into.get_mut(n)? = one(self)?;
            n += 1;
        }
        Some(n)
    }

    // The words that are left, as many as there is room for.
    pub fn words(&mut self, into: &mut [u32]) -> Option<usize>
        ensures { IfSome result (λ n. IsPrefixLen n into.new) }
    {
        self.fill(into, |f| Some(f.hex(8)? as u32))
    }

    // The bytes of the next field, which is the last, two digits for each and as many as there is room for; none
    // where there is no field.
    pub fn bytes(&mut self, into: &mut [u8]) -> Option<usize>
        ensures { IfSome result (λ n. IsPrefixLen n into.new) }
    {
        let Some(field) = self.rest else {
            return Some(0);
        };
        let n = field.len() / 2;
        if n == 0 || field.len() % 2 != 0 || into.len() < n {
            return None;
        }
        for (place, digits) in into.iter_mut().zip(field.chunks_exact(2)) {
            *place = number(digits, 16, 0xFF)? as u8;
        }
        self.rest = None;
        Some(n)
    }
}

// What digits say in this radix, where it is at most `most`.
fn number(digits: &[u8], radix: u32, most: u64) -> Option<u64>
    requires { (2 ≤ radix) × (radix ≤ 36) }
    ensures { IfSome result (λ n. n ≤ most) }
{
    let base = u64::from(radix);
    let mut n: u64 = 0;
    for &b in digits {
        let digit = u64::from(char::from(b).to_digit(radix)?);
        let longer = n.checked_mul(base)?.checked_add(digit)?;
        if most < longer {
            return None;
        }
        n = longer;
    }
    Some(n)
}
