//! What calls of a device move of a text.

ghost use Rattle.std.specs.Prelude.{◌≡◌, ◌≢◌, ◌*◌, ◌-◌, ◌<◌, ◌≤◌, length, take};

/// The front that so many calls move, each at most so many bytes.
pub fn moved(text: &[u8], bytes: u32, calls: u32) -> &[u8]
    ensures { result.now ≡ take (bytes * calls) text.now }
{
    let most = u64::from(bytes) * u64::from(calls);
    &text[..text.len().min(most as usize)]
}

/// How many calls move all of it, each at most so many bytes.
pub fn calls_for(text: &[u8], bytes: u32) -> usize
    requires { 1 ≤ bytes }
    ensures enough { length text.now ≤ bytes * result }
    ensures needed { result ≢ 0 → bytes * (result - 1) < length text.now }
{
    text.len().div_ceil(bytes as usize)
}
