// The words of a stream: the receiver's, then the sender's. A call of one end looks at the words of
// that end alone, and changes no others.
ghost use Rattle.std.specs.Prelude.{◌≡◌, true, false, ◌<◌, length};
ghost use Rattle.receiver.specs.Receiver.{rest_of};
ghost use Rattle.c_state.specs.Receiver.{NarrowReceiver, with_window};
ghost use Rattle.c_state.specs.Sender.{NarrowSender};
ghost use Rattle.c_state.specs.Stream.{stream_words, receiver_fits, sender_fits, fits as fits_of, receiver_in, sender_in, loaded, stored, with_receiver, with_sender};

use super::receiver_part::RECEIVER_WORDS;
use super::{receiver_part, sender_part};
use c_words::lent::{put, renew};
use receiver::receiver::Receiver;
use sender::sender::Sender;
use stream::stream::DataStream;
use window::window::ReceiveWindow;

// The words of a stream.
pub const WORDS: usize = 20;

// The place of the sender's requests.
const REQUESTS: usize = RECEIVER_WORDS + sender_part::REQUESTS;

// Whether there are as many words as a stream has, and the receiver's are some receiver's.
#[tactic(auto, unfolding(crate::specs::Stream::receiver_fits))]
pub fn receiver_fits(words: &[u64]) -> bool
    ensures { result ≡ receiver_fits words.now }
{
    words.len() == WORDS && receiver_part::fits(&words[0..RECEIVER_WORDS])
}

// Whether each of the sender's words is as wide as its figure.
#[tactic(auto, unfolding(crate::specs::Stream::sender_fits))]
pub fn sender_fits(words: &[u64]) -> bool
    ensures { result ≡ sender_fits words.now }
{
    words.len() == WORDS && sender_part::fits(&words[RECEIVER_WORDS..])
}

// Whether the words are some stream's.
#[tactic(auto, unfolding(crate::specs::Stream::fits))]
pub fn fits(words: &[u64]) -> bool
    ensures { result ≡ fits_of words.now }
{
    receiver_fits(words) && sender_fits(words)
}

// The receiver.
pub fn receiver_in(words: &[u64]) -> Receiver
    requires { receiver_fits words.now ≡ true }
    ensures { result ≡ receiver_in words.now }
{
    receiver_part::load(&words[0..RECEIVER_WORDS])
}

// The sender.
pub fn sender_in(words: &[u64]) -> Sender
    requires { sender_fits words.now ≡ true }
    ensures { result ≡ sender_in words.now }
{
    sender_part::load(&words[RECEIVER_WORDS..])
}

// The stream.
pub fn load(words: &[u64]) -> DataStream
    requires { fits_of words.now ≡ true }
    ensures { result ≡ loaded words.now }
{
    DataStream {
        sender: sender_in(words),
        receiver: receiver_in(words),
    }
}

// Stores the receiver into its words.
pub fn store_receiver(receiver: Receiver, words: &mut [u64])
    requires { (length words.old ≡ stream_words) × NarrowReceiver receiver }
    ensures { words.new ≡ with_receiver words.old receiver }
{
    let new = receiver_part::words_of(receiver);
    put(&new, words, 0);
}

// Stores what a call has left of the receiver: where that is what the words have, nothing.
pub fn renew_receiver(receiver: Receiver, words: &mut [u64])
    requires { (length words.old ≡ stream_words) × NarrowReceiver receiver }
    ensures { words.new ≡ with_receiver words.old receiver }
{
    let new = receiver_part::words_of(receiver);
    renew(&new, words, 0);
}

// Stores a receiver whose window alone is new.
pub fn store_window(window: ReceiveWindow, words: &mut [u64])
    requires { (receiver_fits words.old ≡ true) × (window.size < 65536) }
    ensures { words.new ≡ with_receiver words.old (with_window (receiver_in words.old) window) }
{
    let new = receiver_part::with_window(window, &words[0..RECEIVER_WORDS]);
    put(&new, words, 0);
}

// Stores a receiver that is as at the start, but for its window.
pub fn store_rest(refused: bool, window: ReceiveWindow, words: &mut [u64])
    requires { (length words.old ≡ stream_words) × (window.size < 65536) }
    ensures { words.new ≡ with_receiver words.old (rest_of refused window) }
{
    store_receiver(receiver::tested::rest(refused, window), words);
}

// Stores the sender into its words.
pub fn store_sender(sender: Sender, words: &mut [u64])
    requires { (length words.old ≡ stream_words) × NarrowSender sender }
    ensures { words.new ≡ with_sender words.old sender }
{
    let new = sender_part::figures(sender);
    put(&new, words, RECEIVER_WORDS);
    let waiting = sender_part::requests(sender.queue.items);
    put(&waiting, words, REQUESTS);
}

// Stores a sender whose requests are those of the words.
pub fn store_figures(sender: Sender, words: &mut [u64])
    requires { (sender_fits words.old ≡ true) × NarrowSender sender × (sender.queue.items ≡ (sender_in words.old).queue.items) }
    ensures { words.new ≡ with_sender words.old sender }
{
    let new = sender_part::figures(sender);
    put(&new, words, RECEIVER_WORDS);
}

// Stores the stream into the words, which need have none yet.
pub fn store(s: DataStream, words: &mut [u64])
    requires { (length words.old ≡ stream_words) × (NarrowReceiver s.receiver × NarrowSender s.sender) }
    ensures { words.new ≡ stored s }
{
    store_receiver(s.receiver, words);
    store_sender(s.sender, words);
}

// Stores a receiver that is new where `changed` is set.
fn store_changed(changed: bool, receiver: Receiver, words: &mut [u64])
    requires { (receiver_fits words.old ≡ true) × NarrowReceiver receiver × (changed ≡ false → receiver ≡ receiver_in words.old) }
    ensures { words.new ≡ with_receiver words.old receiver }
{
    if changed {
        store_receiver(receiver, words);
    }
}

// Stores a stream whose receiver is new where `changed` is set.
pub fn store_written(changed: bool, s: DataStream, words: &mut [u64])
    requires { (fits_of words.old ≡ true) × NarrowReceiver s.receiver × NarrowSender s.sender × (changed ≡ false → s.receiver ≡ receiver_in words.old) }
    ensures { words.new ≡ stored s }
{
    store_changed(changed, s.receiver, words);
    store_sender(s.sender, words);
}
