// The settings of a stream. No state keeps them: each call that uses them is given them.
ghost use Rattle.std.specs.Prelude.{◌≡◌};
ghost use Rattle.config.specs.Settings.{check_of, defaults};

use super::range::outside;
use super::refusal::Refusal;

// The most words that a data command is written with.
pub const MAX_COMMAND_WORDS: usize = 64;
// The longest first idle interval, in ms.
pub const MAX_IDLE_INTERVAL_MS: usize = 300;

#[derive(Clone, Copy)]
pub struct StreamConfig {
    // T1: ms from the last command with words to the first idle command, 1 to 300.
    pub idle_interval_ms: u32,
    // G: each further idle interval is this many times the one before, 1 or more.
    pub idle_growth: u32,
    // K: how many further idle commands follow.
    pub idle_further: u8,
    // R: how many written commands each payload repeats.
    pub fec_repeats: u8,
    // Whether Retransmit Requests are served and sent.
    pub retransmit: bool,
    // D: ms before the first Retransmit Request.
    pub request_delay_ms: u32,
    // M: how many requests are made for a gap.
    pub max_requests: u8,
    // The most words of one data command, 1 to 64.
    pub max_command_words: usize,
}

impl StreamConfig {
    pub const DEFAULT: StreamConfig = StreamConfig {
        idle_interval_ms: 100,
        idle_growth: 2,
        idle_further: 5,
        fec_repeats: 2,
        retransmit: true,
        request_delay_ms: 10,
        max_requests: 3,
        max_command_words: MAX_COMMAND_WORDS,
    };

    // `DEFAULT`, as a call.
    pub fn default() -> Self
        ensures { result ≡ defaults }
    {
        StreamConfig::DEFAULT
    }

    // The command size, then the idle interval, then the growth.
    pub fn check(self) -> Result<(), Refusal>
        ensures { result ≡ check_of self }
    {
        if outside(1, MAX_COMMAND_WORDS, self.max_command_words) {
            return Err(Refusal::CommandWords);
        }
        if outside(1, MAX_IDLE_INTERVAL_MS, self.idle_interval_ms as usize) {
            return Err(Refusal::IdleInterval);
        }
        if self.idle_growth == 0 {
            return Err(Refusal::IdleGrowth);
        }
        Ok(())
    }
}
