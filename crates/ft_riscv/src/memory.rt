//! Memory as a row of aligned words of 64 bits, and code as a row of words of 32 bits.
ghost use Rattle.std.specs.Prelude.{◌≡◌, ◌<◌, ℕ, List};
ghost use Rattle.ft_riscv.specs.Memory.{place, code_at, word_at, with_word};

/// Which unit of a row that begins at `base` has this address.
fn place(base: u64, unit: u64, address: u64) -> Option<u64>
    requires { 0 < unit }
    ensures { result ≡ place base unit address }
{
    if base <= address {
        let offset = address - base;
        if offset % unit == 0 {
            return Some(offset / unit);
        }
    }
    None
}

/// The word of code at an address.
pub fn code_at(base: u64, code: &[u32], address: u64) -> Option<u32>
    ensures { result ≡ code_at base code.now address }
{
    match place(base, 4, address) {
        None => None,
        Some(n) => {
            let at = n as usize;
            if at < code.len() {
                Some(code[at])
            } else {
                None
            }
        },
    }
}

/// The word of memory at an address.
pub fn load(base: u64, words: &[u64], address: u64) -> Option<u64>
    ensures { result ≡ word_at base words.now address }
{
    match place(base, 8, address) {
        None => None,
        Some(n) => {
            let at = n as usize;
            if at < words.len() {
                Some(words[at])
            } else {
                None
            }
        },
    }
}

/// Replaces the word of memory at an address; where there is none, nothing changes.
pub fn store(base: u64, words: &mut [u64], address: u64, value: u64)
    ensures { words.new ≡ with_word base words.old address value }
{
    match place(base, 8, address) {
        None => {},
        Some(n) => {
            let at = n as usize;
            if at < words.len() {
                words[at] = value;
            }
        },
    }
}
