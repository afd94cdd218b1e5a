//! Parts of a session's object and script.

/// The record of an instruction that ends a run.
pub const HALT: &[u8] = b"\x07\0\0\0\0\0\0\0\0\0\0\0\0\0\0\0";

/// Sets 65 breakpoints, and then one of them again.
pub const BREAKS: &str = "break 0 0\n\
    break 0 1\n\
    break 0 2\n\
    break 0 3\n\
    break 0 4\n\
    break 0 5\n\
    break 0 6\n\
    break 0 7\n\
    break 0 8\n\
    break 0 9\n\
    break 0 10\n\
    break 0 11\n\
    break 0 12\n\
    break 0 13\n\
    break 0 14\n\
    break 0 15\n\
    break 0 16\n\
    break 0 17\n\
    break 0 18\n\
    break 0 19\n\
    break 0 20\n\
    break 0 21\n\
    break 0 22\n\
    break 0 23\n\
    break 0 24\n\
    break 0 25\n\
    break 0 26\n\
    break 0 27\n\
    break 0 28\n\
    break 0 29\n\
    break 0 30\n\
    break 0 31\n\
    break 0 32\n\
    break 0 33\n\
    break 0 34\n\
    break 0 35\n\
    break 0 36\n\
    break 0 37\n\
    break 0 38\n\
    break 0 39\n\
    break 0 40\n\
    break 0 41\n\
    break 0 42\n\
    break 0 43\n\
    break 0 44\n\
    break 0 45\n\
    break 0 46\n\
    break 0 47\n\
    break 0 48\n\
    break 0 49\n\
    break 0 50\n\
    break 0 51\n\
    break 0 52\n\
    break 0 53\n\
    break 0 54\n\
    break 0 55\n\
    break 0 56\n\
    break 0 57\n\
    break 0 58\n\
    break 0 59\n\
    break 0 60\n\
    break 0 61\n\
    break 0 62\n\
    break 0 63\n\
    break 0 64\n\
    break 0 3";
