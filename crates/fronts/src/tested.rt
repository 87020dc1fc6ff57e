// Words that were tested to be whole messages, divided.
//
//   words:  | message | message | message | .. |
//           |<- front of at most n ->|  behind: the next command's front, and so on
ghost use Rattle.std.specs.Prelude.{◌≡◌, true, false, not, ◌≤◌, length};
ghost use Rattle.command.specs.Messages.{whole_of};
ghost use Rattle.fronts.specs.Commands.{front, commands_of, above};

use command::message::{message_words, whole_words};

// How many words the whole messages at the front have that have at most `n` together.
pub fn front_words(words: &[u32], n: usize) -> usize
    requires { whole_of words.now ≡ true }
    ensures { (result ≡ length (front n words.now)) × (result ≤ length words.now) × (result ≤ n) }
{
    if words.len() <= n {
        return words.len();
    }
    whole_words(&words[..n])
}

// The most words of a message.
const LONGEST: usize = 4;

// Whether no message has more than `max` words.
pub fn fit(words: &[u32], max: usize) -> bool
    requires { whole_of words.now ≡ true }
    ensures { result ≡ not (above max words.now) }
{
    if LONGEST <= max {
        return true;
    }
    let mut at = 0;
    // A `while`: the next index depends on the word that was read.
    while at < words.len() {
        let m = message_words(words[at]);
        if max < m {
            return false;
        }
        at += m;
    }
    true
}

// How many commands of at most `max` words the words divide into.
pub fn commands(words: &[u32], max: usize) -> usize
    requires { (whole_of words.now ≡ true) × (above max words.now ≡ false) }
    ensures { (result ≡ length (commands_of max words.now)) × (result ≤ length words.now) }
{
    let mut at = 0;
    let mut count = 0;
    // A `while`: the next index depends on the words of the front.
    while at < words.len() {
        at += front_words(&words[at..], max);
        count += 1;
    }
    count
}
