// The receiver and its calls. Each takes the receiver by value and hands it back with its answer.
ghost use Rattle.std.specs.Prelude.{◌≡◌, ◌&&◌, Ok, Err};
ghost use Rattle.config.specs.Entry.{on_state, entry};
ghost use Rattle.config.specs.Settings.{check_of};
ghost use Rattle.packet.specs.Write.{valid_of as payload_valid};
ghost use Rattle.receiver.specs.Receiver.{valid_of};
ghost use Rattle.receiver.specs.Answers.{refused_of, new_answer, reset_answer, data_answer, poll_answer, error_answer, nak_answer, take_answer, deadline_answer, due_answer};

use super::tested;
use command::data::UmpData;
use command::retransmit::{RetransmitError, RetransmitRequest};
use config::refusal::Refusal;
use config::sequence::SeqNum;
use config::settings::StreamConfig;
use packet::writer::PayloadWriter;
use window::window::{Class, ReceiveWindow, SeqRange};

#[derive(Clone, Copy)]
pub struct RequestTimer {
    // When the next step is due, in ms.
    pub due: u64,
    // Requests made due since the timer was started.
    pub sent: u8,
}

#[derive(Clone, Copy)]
pub struct Receiver {
    pub window: ReceiveWindow,
    pub timer: Option<RequestTimer>,
    // A request waits to be taken.
    pub request_due: bool,
    // The peer has answered that it serves no requests.
    pub refused: bool,
    // The last request that was taken and has no answer yet.
    pub asked: Option<RetransmitRequest>,
}

// What a data command was.
#[derive(Clone, Copy)]
pub struct Delivery {
    pub seq: SeqNum,
    pub class: Class,
    // The numbers that were skipped before it.
    pub gap: Option<SeqRange>,
    // From the oldest to the newest number that left the window unprocessed.
    pub lost: Option<SeqRange>,
}

#[derive(Clone, Copy)]
pub enum StreamEvent {
    // The numbers of the range that were not processed before are lost.
    DataLoss(SeqRange),
    // These numbers are lost, as a Retransmit Error told.
    ErrorLoss(SeqRange, RetransmitError),
    // A Retransmit Error by which nothing was lost.
    RetransmitError(RetransmitError),
}

#[derive(Clone, Copy)]
pub enum Request {
    // Nothing was due.
    Nothing,
    Written,
    // It does not fit in what is left of the payload.
    More,
}

#[derive(Clone, Copy)]
pub struct RequestWritten {
    pub receiver: Receiver,
    pub payload: PayloadWriter,
    pub answer: Result<Request, Refusal>,
}

// The receiver after a call, as it was where the call was refused, and what the call answers.
#[derive(Clone, Copy)]
pub struct ReceiverAnswer<T> {
    pub receiver: Receiver,
    pub answer: Result<T, Refusal>,
}

impl<T> ReceiverAnswer<T> {
    // A refused call leaves the receiver as it was.
    fn refused(receiver: Receiver, why: Refusal) -> ReceiverAnswer<T>
        ensures { result ≡ refused_of receiver why }
    {
        ReceiverAnswer {
            receiver,
            answer: Err(why),
        }
    }
}

impl Receiver {
    // A fresh receiver; 12 when the window's size is not 1 to 128.
    #[tactic(auto, unfolding(crate::specs::Answers::new_answer, window::specs::Answers::start_answer))]
    pub fn new(size: u32) -> Result<Receiver, Refusal>
        ensures { result ≡ new_answer size }
    {
        let window = ReceiveWindow::new(size)?;
        Ok(tested::rest(false, window))
    }

    // 13 for a state that no call has left.
    fn check(self) -> Result<(), Refusal>
        ensures { result ≡ on_state (valid_of self) Err (Ok tt) }
    {
        if tested::is_valid(self) {
            Ok(())
        } else {
            Err(Refusal::InvalidState)
        }
    }

    // The settings' own number first, then the state.
    fn ready(self, cfg: StreamConfig) -> Result<(), Refusal>
        ensures { result ≡ entry (check_of cfg) (valid_of self) Err (Ok tt) }
    {
        cfg.check()?;
        self.check()
    }

    // As `ready`, and the payload's state.
    fn ready_to_write(self, cfg: StreamConfig, p: PayloadWriter, lent: usize) -> Result<(), Refusal>
        ensures { result ≡ entry (check_of cfg) (valid_of self && payload_valid p lent) Err (Ok tt) }
    {
        self.ready(cfg)?;
        if packet::tested::is_valid(p, lent) {
            Ok(())
        } else {
            Err(Refusal::InvalidState)
        }
    }

    // Back to the fresh receiver of the same size.
    #[tactic(auto, unfolding(crate::specs::Answers::reset_answer))]
    pub fn reset(self) -> ReceiverAnswer<()>
        ensures { result ≡ reset_answer self }
    {
        match self.check() {
            Ok(()) => ReceiverAnswer {
                receiver: tested::reset(self),
                answer: Ok(()),
            },
            Err(why) => ReceiverAnswer::refused(self, why),
        }
    }

    // A data command arrives.
    #[tactic(auto, unfolding(crate::specs::Answers::data_answer))]
    pub fn on_ump_data(
        self,
        cfg: StreamConfig,
        time: u64,
        data: UmpData,
    ) -> ReceiverAnswer<Delivery>
        ensures { result ≡ data_answer self cfg time «data».seq }
    {
        match self.ready(cfg) {
            Ok(()) => tested::on_ump_data(self, cfg, time, data.seq),
            Err(why) => ReceiverAnswer::refused(self, why),
        }
    }

    // Runs the timer: makes a request due, or gives up and reports what is missing.
    #[tactic(auto, unfolding(crate::specs::Answers::poll_answer))]
    pub fn poll(self, cfg: StreamConfig, time: u64) -> ReceiverAnswer<Option<StreamEvent>>
        ensures { result ≡ poll_answer self cfg time }
    {
        match self.ready(cfg) {
            Ok(()) => tested::poll(self, cfg, time),
            Err(why) => ReceiverAnswer::refused(self, why),
        }
    }

    // A Retransmit Error arrives: what the unanswered request asked for and is missing is lost.
    #[tactic(auto, unfolding(crate::specs::Answers::error_answer))]
    pub fn on_retransmit_error(self, err: RetransmitError) -> ReceiverAnswer<Option<StreamEvent>>
        ensures { result ≡ error_answer self err }
    {
        match self.check() {
            Ok(()) => tested::on_retransmit_error(self, err),
            Err(why) => ReceiverAnswer::refused(self, why),
        }
    }

    // A NAK arrives: no requests until a reset; with one unanswered, all that is missing is lost.
    #[tactic(auto, unfolding(crate::specs::Answers::nak_answer))]
    pub fn on_retransmit_nak(self) -> ReceiverAnswer<Option<StreamEvent>>
        ensures { result ≡ nak_answer self }
    {
        match self.check() {
            Ok(()) => tested::on_retransmit_nak(self),
            Err(why) => ReceiverAnswer::refused(self, why),
        }
    }

    // Takes a due request into a payload; 3 when it does not fit and the payload is empty.
    #[tactic(auto, unfolding(crate::specs::Answers::take_answer))]
    pub fn write_request(
        self,
        cfg: StreamConfig,
        p: PayloadWriter,
        buf: &mut [u8],
    ) -> RequestWritten
        ensures { (result, buf.new) ≡ take_answer self cfg p buf.old }
    {
        match self.ready_to_write(cfg, p, buf.len()) {
            Ok(()) => tested::write_request(self, cfg, p, buf),
            Err(why) => RequestWritten {
                receiver: self,
                payload: p,
                answer: Err(why),
            },
        }
    }

    // When the timer's next step is due.
    #[tactic(auto, unfolding(crate::specs::Answers::deadline_answer))]
    pub fn next_deadline(self) -> Result<Option<u64>, Refusal>
        ensures { result ≡ deadline_answer self }
    {
        self.check()?;
        tested::next_deadline(self)
    }

    // Whether a request waits to be taken.
    #[tactic(auto, unfolding(crate::specs::Answers::due_answer))]
    pub fn request_due(self) -> Result<bool, Refusal>
        ensures { result ≡ due_answer self }
    {
        self.check()?;
        Ok(self.request_due)
    }
}
