// The settings as eight words that the caller lends, in the order of the papers:
//
//   T1 G K R X D M SIZE
ghost use Rattle.std.specs.Prelude.{◌≡◌, length};
ghost use Rattle.config.specs.Entry.{on_state};
ghost use Rattle.config.specs.Refusals.{outcome_number};
ghost use Rattle.config.specs.Settings.{check_of};
ghost use Rattle.c_words.specs.Limits.{within};
ghost use Rattle.c_words.specs.Settings.{Small, settings_limits, settings_check, settings_of};

use super::guard;
use config::refusal::Refusal;
use config::settings::StreamConfig;

// The settings' own test, which looks at SIZE, T1 and G alone.
fn check(words: &[u32]) -> Result<(), Refusal>
    requires { length words.now ≡ 8 }
    ensures { result ≡ check_of (settings_of words.now) }
{
    let tested = StreamConfig {
        idle_interval_ms: words[0],
        idle_growth: words[1],
        idle_further: 0,
        fec_repeats: 0,
        retransmit: false,
        request_delay_ms: 0,
        max_requests: 0,
        max_command_words: words[7] as usize,
    };
    tested.check()
}

// Whether K, R and M fit 8 bits, and X is 0 or 1.
fn narrow(words: &[u32]) -> bool
    requires { length words.now ≡ 8 }
    ensures { result ≡ within settings_limits words.now }
{
    if 255 < words[2] | words[3] | words[6] {
        return false;
    }
    words[4] <= 1
}

// 13 for words that are too wide.
fn fit(fits: bool) -> u8
    ensures { result ≡ outcome_number (on_state fits Err (Ok tt)) }
{
    if fits {
        return 0;
    }
    guard::INVALID_STATE
}

// 0, or why the words are refused: 13 where they are not eight, then 9, 7, 8, then 13 where a word is
// too wide.
pub fn number(words: &[u32]) -> u8
    ensures { result ≡ outcome_number (settings_check words.now) }
{
    if words.len() != 8 {
        return guard::INVALID_STATE;
    }
    match check(words) {
        Err(why) => why.number(),
        Ok(()) => fit(narrow(words)),
    }
}

// The settings.
pub fn load(words: &[u32]) -> StreamConfig
    requires { Small words.now }
    ensures { result ≡ settings_of words.now }
{
    StreamConfig {
        idle_interval_ms: words[0],
        idle_growth: words[1],
        idle_further: words[2] as u8,
        fec_repeats: words[3] as u8,
        retransmit: words[4] == 1,
        request_delay_ms: words[5],
        max_requests: words[6] as u8,
        max_command_words: words[7] as usize,
    }
}
