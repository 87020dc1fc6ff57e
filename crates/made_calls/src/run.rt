// What a call runs.
use super::caller::Caller;
use super::{codec, loaded, streams};
use c_words::settings;
use script::calls::{Call, Kind};
use script::{answers, calls};
use text::forms::Answer;

// Runs a call and answers it; a call that only shows what is there changes nothing.
pub fn run(caller: &mut Caller, call: Call, words: &[u32]) -> Answer {
    match call.kind {
        Kind::Cfg => answers::done(settings::number(&caller.settings)),
        Kind::Open => codec::open(caller, call),
        Kind::Raw | Kind::SendData | Kind::SendRequest | Kind::SendError => {
            codec::sends(caller, call, words)
        }
        Kind::New => streams::new(caller, call),
        Kind::Reset => streams::reset(caller),
        Kind::Queue | Kind::QueueLong => streams::queue(caller, words),
        Kind::Request => streams::request(caller, calls::half(call.a), calls::half(call.b)),
        Kind::Data => streams::data(caller, call.a, calls::half(call.b)),
        Kind::Poll => streams::poll(caller, call.a),
        Kind::Error => streams::error(caller, calls::byte(call.a), calls::half(call.b)),
        Kind::Nak => streams::nak(caller),
        Kind::Deadline => streams::deadline(caller),
        Kind::Wants => streams::wants(caller, call.a),
        Kind::Write => streams::write(caller, call.a),
        Kind::Take => streams::take(caller),
        Kind::Next => loaded::next(caller),
        Kind::Last => caller.last,
        Kind::Read
        | Kind::Payload
        | Kind::Buffer
        | Kind::State
        | Kind::Memory
        | Kind::Window
        | Kind::Hear => answers::plain(answers::SHOWN),
    }
}
