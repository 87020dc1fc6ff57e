// MIDI messages (M2-104-UM): the top four bits of a message's first word give its length.
//
//   words:  | message | message | .. | a part of one, or nothing
//           ^ at
ghost use Rattle.std.specs.Prelude.{◌≡◌, ◌≤◌, ◌<◌, ℕ, List, length, get_or};
ghost use Rattle.packet.specs.Bytes.{words_of};
ghost use Rattle.command.specs.Messages.{message_words, whole_of, whole_words, message_at, item_words};

use packet::cursor::word;

// Words of a message, by its type: a hex digit for each, type 0 the last.
const WORDS: u64 = 0x4443_3222_1142_2111;

// The words of the message that begins with the word `first`: 1 to 4.
pub fn message_words(first: u32) -> usize
    ensures { (result ≡ message_words first) × (1 ≤ result) × (result ≤ 4) }
{
    let kind = first / 0x1000_0000;
    ((WORDS >> (4 * kind)) % 0x10) as usize
}

// Words in order, however they are held.
trait Words: Copy {
    ghost words: { Self → List ℕ };

    fn count(self) -> usize
        ensures { result ≡ length (words self) };

    fn word(self, at: usize) -> u32
        requires { at < length (words self) }
        ensures { result ≡ get_or (words self) at 0 };
}

impl<'a> Words for &'a [u32] {
    ghost words = { λ s. s.now };

    fn count(self) -> usize {
        self.len()
    }

    fn word(self, at: usize) -> u32 {
        self[at]
    }
}

// The words of a command's bytes.
#[derive(Clone, Copy)]
struct Body<'a> {
    bytes: &'a [u8],
}

impl<'a> Words for Body<'a> {
    ghost words = { λ s. words_of s.bytes.now };

    fn count(self) -> usize {
        self.bytes.len() / 4
    }

    fn word(self, at: usize) -> u32 {
        word_at(self.bytes, at)
    }
}

// The words of the whole message at index `at`; 0 where there is none.
fn message<W: Words>(words: W, at: usize) -> usize
    ensures { result ≡ item_words (message_at (W.words words) at) }
{
    let count = words.count();
    if count <= at {
        return 0;
    }
    let n = message_words(words.word(at));
    if count - at < n { 0 } else { n }
}

// How many words the whole messages at the front have.
fn whole<W: Words>(words: W) -> usize
    ensures { result ≡ length (whole_words (W.words words)) }
{
    let mut at = 0;
    // The length of the message before. Where the next one has it too, the next index does not wait
    // for the word that was read.
    let mut same = 1;
    // A `while`: the next index depends on the word that was read, and an iterator over the messages
    // would wait for it.
    while at < words.count() {
        let n = message(words, at);
        if n != same {
            if n == 0 {
                return at;
            }
            same = n;
        }
        at += same;
    }
    at
}

// The words of the whole message at index `at`; 0 where there is none.
pub fn message_at(words: &[u32], at: usize) -> usize
    ensures { result ≡ item_words (message_at words.now at) }
{
    message(words, at)
}

// How many words the whole messages at the front have.
pub fn whole_words(words: &[u32]) -> usize
    ensures { result ≡ length (whole_words words.now) }
{
    whole(words)
}

// Whether the words end where a message ends.
pub fn whole_messages(words: &[u32]) -> bool
    ensures { result ≡ whole_of words.now }
{
    words.len() <= whole_words(words)
}

// A walk over the messages of a data command: the index of the next one's first word.
#[derive(Clone, Copy)]
pub struct UmpMessages {
    pub at: usize,
}

#[derive(Clone, Copy)]
pub enum MessageItem {
    // A whole message: the index of its first word, how many it has, and the way on.
    Message {
        at: usize,
        len: usize,
        next: UmpMessages,
    },
    // The words end inside a message.
    Truncated,
    End,
}

impl UmpMessages {
    pub fn new() -> Self
        ensures { result.at ≡ 0 }
    {
        UmpMessages { at: 0 }
    }

    // What stands next in the bytes of a data command's words.
    pub fn next(self, body: &[u8]) -> MessageItem
        ensures { result ≡ message_at (words_of body.now) self.at }
    {
        let at = self.at;
        match word(body, at) {
            None => MessageItem::End,
            Some(first) => {
                let len = message_words(first);
                if body.len() / 4 - at < len {
                    return MessageItem::Truncated;
                }
                MessageItem::Message {
                    at,
                    len,
                    next: UmpMessages { at: at + len },
                }
            }
        }
    }
}

// The word at `at` of a data command's bytes; 0 past the last.
pub fn word_at(body: &[u8], at: usize) -> u32
    ensures { result ≡ get_or (words_of body.now) at 0 }
{
    match word(body, at) {
        Some(w) => w,
        None => 0,
    }
}

// The words of the whole message at the word `at` of a data command's bytes; 0 where there is none.
pub fn message_in(body: &[u8], at: usize) -> usize
    ensures { result ≡ item_words (message_at (words_of body.now) at) }
{
    message(Body { bytes: body }, at)
}

// As `whole_words`, over a data command's bytes.
pub fn whole_words_in(body: &[u8]) -> usize
    ensures { result ≡ length (whole_words (words_of body.now)) }
{
    whole(Body { bytes: body })
}
