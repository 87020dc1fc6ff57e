// The stream and its calls. Each takes the stream by value and hands it back with its answer; the
// send history's words lie in the lent slice `ring`.
ghost use Rattle.std.specs.Prelude.{◌≡◌, Ok, Err};
ghost use Rattle.config.specs.Entry.{on_state};
ghost use Rattle.stream.specs.State.{valid_of};
ghost use Rattle.stream.specs.Ends.{sent_by, heard_by, send_answer, request_answer, data_answer, error_answer, nak_answer, poll_answer, take_answer};
ghost use Rattle.stream.specs.Answers.{not_started, started_of, new_answer, reset_answer, deadline_answer, wants_answer};
ghost use Rattle.stream.specs.Writing.{refused_of, write_answer};

use super::tested;
use command::data::UmpData;
use command::retransmit::{RetransmitError, RetransmitRequest};
use config::refusal::Refusal;
use config::settings::StreamConfig;
use packet::writer::PayloadWriter;
use receiver::receiver::{Delivery, Receiver, ReceiverAnswer, Request, StreamEvent};
use sender::sender::{RequestOutcome, Sender, SenderAnswer};
use window::set;
use window::window::ReceiveWindow;
use writing::writing::Written;

#[derive(Clone, Copy)]
pub struct DataStream {
    pub sender: Sender,
    pub receiver: Receiver,
}

// The stream after a call, as it was where the call was refused, and what the call answers.
#[derive(Clone, Copy)]
pub struct StreamAnswer<T> {
    pub stream: DataStream,
    pub answer: Result<T, Refusal>,
}

#[derive(Clone, Copy)]
pub struct RequestWritten {
    pub stream: DataStream,
    pub payload: PayloadWriter,
    pub answer: Result<Request, Refusal>,
}

#[derive(Clone, Copy)]
pub struct Wrote {
    pub stream: DataStream,
    pub payload: PayloadWriter,
    pub answer: Result<Written, Refusal>,
}

impl Wrote {
    // A refused write leaves the stream and the payload as they are.
    pub(crate) fn refused(stream: DataStream, payload: PayloadWriter, why: Refusal) -> Wrote
        ensures { result ≡ refused_of stream payload why }
    {
        Wrote {
            stream,
            payload,
            answer: Err(why),
        }
    }
}

// A stream of sizes 0, which the state test refuses.
fn not_started(why: Refusal) -> StreamAnswer<()>
    ensures { result ≡ not_started why }
{
    let none = sender::tested::not_started();
    let window = ReceiveWindow {
        size: 0,
        highest: 0xFFFF,
        bits: set::none(),
    };
    StreamAnswer {
        stream: DataStream {
            sender: none.sender,
            receiver: receiver::tested::rest(false, window),
        },
        answer: Err(why),
    }
}

// Both ends fresh, or the number of the first that is not taken.
#[tactic(auto, unfolding(receiver::specs::Answers::new_answer, sender::specs::Answers::new_answer))]
fn started(
    cfg: StreamConfig,
    window: u32,
    words: usize,
    places: usize,
    ring: &mut [u32],
) -> Result<DataStream, Refusal>
    ensures { (result, ring.new) ≡ started_of cfg window words places ring.old }
{
    cfg.check()?;
    let receiver = Receiver::new(window)?;
    let started = Sender::new(words, places, ring);
    started.answer?;
    Ok(DataStream {
        sender: started.sender,
        receiver,
    })
}

impl DataStream {
    // A fresh stream: a receive window of `window` numbers, a lent history of `words` words, which is
    // zeroed, and a request queue of `places` places; 12 for sizes that are not taken.
    #[tactic(auto, unfolding(crate::specs::Answers::new_answer))]
    pub fn new(
        cfg: StreamConfig,
        window: u32,
        words: usize,
        places: usize,
        ring: &mut [u32],
    ) -> StreamAnswer<()>
        ensures { (result, ring.new) ≡ new_answer cfg window words places ring.old }
    {
        match started(cfg, window, words, places, ring) {
            Ok(stream) => StreamAnswer {
                stream,
                answer: Ok(()),
            },
            Err(why) => not_started(why),
        }
    }

    // 13 for states that no call has left.
    fn check(self, ring: &[u32]) -> Result<(), Refusal>
        ensures { result ≡ on_state (valid_of self ring.now) Err (Ok tt) }
    {
        if tested::is_valid(self, ring) {
            Ok(())
        } else {
            Err(Refusal::InvalidState)
        }
    }

    // The stream after a call of its sender.
    fn sent<T>(self, by: SenderAnswer<T>) -> StreamAnswer<T>
        ensures { result ≡ sent_by self by }
    {
        StreamAnswer {
            stream: DataStream {
                sender: by.sender,
                ..self
            },
            answer: by.answer,
        }
    }

    // The stream after a call of its receiver.
    fn heard<T>(self, by: ReceiverAnswer<T>) -> StreamAnswer<T>
        ensures { result ≡ heard_by self by }
    {
        StreamAnswer {
            stream: DataStream {
                receiver: by.receiver,
                ..self
            },
            answer: by.answer,
        }
    }

    // Back to the fresh stream of the same sizes; the lent history is zeroed.
    #[tactic(auto, unfolding(crate::specs::Answers::reset_answer))]
    pub fn reset(self, ring: &mut [u32]) -> StreamAnswer<()>
        ensures { (result, ring.new) ≡ reset_answer self ring.old }
    {
        match self.check(&ring[..]) {
            Ok(()) => StreamAnswer {
                stream: DataStream {
                    sender: sender::tested::reset(self.sender, ring),
                    receiver: receiver::tested::reset(self.receiver),
                },
                answer: Ok(()),
            },
            Err(why) => StreamAnswer {
                stream: self,
                answer: Err(why),
            },
        }
    }

    // Queues whole messages to send; 5, 3 and 6 for words that are not queued.
    #[tactic(auto, unfolding(crate::specs::Ends::send_answer))]
    pub fn send_ump(self, cfg: StreamConfig, ring: &mut [u32], words: &[u32]) -> StreamAnswer<()>
        ensures { (result, ring.new) ≡ send_answer self cfg ring.old words.now }
    {
        self.sent(self.sender.send_ump(cfg, ring, words))
    }

    // A Retransmit Request arrives.
    #[tactic(auto, unfolding(crate::specs::Ends::request_answer))]
    pub fn on_retransmit_request(
        self,
        cfg: StreamConfig,
        ring: &[u32],
        req: RetransmitRequest,
    ) -> StreamAnswer<RequestOutcome>
        ensures { result ≡ request_answer self cfg ring.now req }
    {
        self.sent(self.sender.on_retransmit_request(cfg, ring, req))
    }

    // A data command arrives.
    #[tactic(auto, unfolding(crate::specs::Ends::data_answer))]
    pub fn on_ump_data(self, cfg: StreamConfig, time: u64, data: UmpData) -> StreamAnswer<Delivery>
        ensures { result ≡ data_answer self cfg time «data».seq }
    {
        self.heard(self.receiver.on_ump_data(cfg, time, data))
    }

    // A Retransmit Error arrives.
    #[tactic(auto, unfolding(crate::specs::Ends::error_answer))]
    pub fn on_retransmit_error(self, err: RetransmitError) -> StreamAnswer<Option<StreamEvent>>
        ensures { result ≡ error_answer self err }
    {
        self.heard(self.receiver.on_retransmit_error(err))
    }

    // A NAK to a Retransmit Request arrives.
    #[tactic(auto, unfolding(crate::specs::Ends::nak_answer))]
    pub fn on_retransmit_nak(self) -> StreamAnswer<Option<StreamEvent>>
        ensures { result ≡ nak_answer self }
    {
        self.heard(self.receiver.on_retransmit_nak())
    }

    // Runs the receiver's timer.
    #[tactic(auto, unfolding(crate::specs::Ends::poll_answer))]
    pub fn poll(self, cfg: StreamConfig, time: u64) -> StreamAnswer<Option<StreamEvent>>
        ensures { result ≡ poll_answer self cfg time }
    {
        self.heard(self.receiver.poll(cfg, time))
    }

    // Takes a due request into a payload, and writes nothing else.
    #[tactic(auto, unfolding(crate::specs::Ends::take_answer))]
    pub fn write_request(
        self,
        cfg: StreamConfig,
        p: PayloadWriter,
        buf: &mut [u8],
    ) -> RequestWritten
        ensures { (result, buf.new) ≡ take_answer self cfg p buf.old }
    {
        let taken = self.receiver.write_request(cfg, p, buf);
        RequestWritten {
            stream: DataStream {
                receiver: taken.receiver,
                ..self
            },
            payload: taken.payload,
            answer: taken.answer,
        }
    }

    // The earliest time at which `poll` or `write_data` has timed work.
    #[tactic(auto, unfolding(crate::specs::Answers::deadline_answer))]
    pub fn next_deadline(self, ring: &[u32]) -> Result<Option<u64>, Refusal>
        ensures { result ≡ deadline_answer self ring.now }
    {
        self.check(ring)?;
        tested::earlier(
            receiver::tested::next_deadline(self.receiver),
            sender::tested::next_deadline(self.sender),
        )
    }

    // Whether `write_data` at this time has something to write.
    #[tactic(auto, unfolding(crate::specs::Answers::wants_answer))]
    pub fn wants_write(self, ring: &[u32], time: u64) -> Result<bool, Refusal>
        ensures { result ≡ wants_answer self ring.now time }
    {
        self.check(ring)?;
        Ok(self.receiver.request_due || sender::tested::wants_write(self.sender, time))
    }

    // Writes into a payload: a due request, then the sender's commands. Where `more` is answered, the
    // caller sends the payload and writes again into a new one; 3 when nothing fits an empty payload.
    pub fn write_data(
        self,
        cfg: StreamConfig,
        time: u64,
        p: PayloadWriter,
        buf: &mut [u8],
        ring: &mut [u32],
    ) -> Wrote
        ensures { (result, buf.new, ring.new) ≡ write_answer self cfg time p buf.old ring.old }
    {
        if let Err(why) = cfg.check() {
            return Wrote::refused(self, p, why);
        }
        match tested::test(self, &ring[..], cfg.fec_repeats as usize) {
            Some(mark) if packet::tested::is_valid(p, buf.len()) => {
                tested::write_data(self, cfg, time, p, buf, ring, mark)
            }
            _ => Wrote::refused(self, p, Refusal::InvalidState),
        }
    }
}
