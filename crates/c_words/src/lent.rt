// Words that a caller lends. They are few, and how many is known where these are called: there loops take less time than a
// copy and a comparison of the library's.
ghost use Rattle.std.specs.Prelude.{◌≡◌, true, ◌+◌, ◌≤◌, length};
ghost use Rattle.packet.specs.Bytes.{spliced};

// Stores words from the place `at` on, where there need be none yet.
pub fn put(from: &[u64], to: &mut [u64], at: usize)
    requires { at + length from.now ≤ length to.old }
    ensures { to.new ≡ spliced to.old at from.now }
{
    for k in 0..from.len() {
        to[at + k] = from[k];
    }
}

// Whether the words stand from the place `at` on.
fn stand(from: &[u64], to: &[u64], at: usize) -> bool
    requires { at + length from.now ≤ length to.now }
    ensures { result ≡ true → to.now ≡ spliced to.now at from.now }
{
    for k in 0..from.len() {
        if to[at + k] != from[k] {
            return false;
        }
    }
    true
}

// Stores words from the place `at` on, unless they stand there: then nothing is stored.
pub fn renew(from: &[u64], to: &mut [u64], at: usize)
    requires { at + length from.now ≤ length to.old }
    ensures { to.new ≡ spliced to.old at from.now }
{
    if !stand(from, &to[..], at) {
        put(from, to, at);
    }
}
