// What a run of calls has: what is lent to them, as a C caller has it, and what is held between two of them.
ghost use Rattle.std.specs.Prelude.{◌≡◌, [], ◌∷◌, take, slice_index};

use c_state::state::WORDS;
use c_stream::exports as c;
use script::answers;
use text::forms::Answer;

// The memory is a word more than a history takes: a start with more is refused by its size.
const MEMORY: usize = 32769;

const BUFFER: usize = 2048;

// The history of a run's start.
const HISTORY: usize = 256;

#[derive(Clone, Copy)]
pub struct Caller {
    pub stream: [u64; WORDS],
    pub settings: [u32; 8],
    // The first `size` words are the history.
    pub memory: [u32; MEMORY],
    pub size: usize,
    // The payload's two words: its length and its limit.
    pub payload: [u64; 2],
    // The first `room` bytes are the payload's.
    pub buffer: [u8; BUFFER],
    pub room: usize,
    // What `last` answers.
    pub last: Answer,
}

impl Caller {
    // A run's start: the default settings, a window of 64, a request queue of 4 places, and a payload of 1,400 bytes.
    pub fn new() -> Caller
        ensures history { result.size ≡ 256 }
        ensures payload { result.payload ≡ 0 ∷ 1400 ∷ [] }
        ensures buffer { result.room ≡ 1400 }
    {
        let mut stream = [0u64; WORDS];
        let settings = [100u32, 2, 5, 2, 1, 10, 3, 64];
        let mut memory = [0u32; MEMORY];
        c::sirmjold_stream_new(&mut stream, &settings, 64, 4, &mut memory[..HISTORY]);
        Caller {
            stream,
            settings,
            memory,
            size: HISTORY,
            payload: [0, 1400],
            buffer: [0xAA; BUFFER],
            room: 1400,
            last: answers::plain(answers::NONE),
        }
    }

    pub fn history(&self) -> &[u32]
        ensures { result.now ≡ take self.now.size self.now.memory }
    {
        let n = self.size.min(MEMORY);
        &self.memory[..n]
    }

    // The bytes that are lent for a payload.
    pub fn lent(&self) -> &[u8]
        ensures { result.now ≡ take self.now.room self.now.buffer }
    {
        let n = self.room.min(BUFFER);
        &self.buffer[..n]
    }

    // The bytes of the payload.
    pub fn written(&self) -> &[u8]
        ensures { result.now ≡ take (slice_index self.now.payload 0) (take self.now.room self.now.buffer) }
    {
        let bytes = self.lent();
        let n = (self.payload[0] as usize).min(bytes.len());
        &bytes[..n]
    }
}
