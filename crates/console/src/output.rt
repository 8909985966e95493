// Printing to standard output. No contract can say what is written, so these functions have none. A write that fails is let go, and the
// program goes on.

// Prints a text.
pub fn say(rt: &impl Print, text: &[u8]) {
    let _ = rt.write_all(text);
}

// Prints a number in decimal.
pub fn say_number(rt: &impl Print, n: u64) {
    let _ = rt.print(n);
}

// Prints a text and, right after it, a number.
pub fn say_count(rt: &impl Print, text: &[u8], n: u64) {
    say(rt, text);
    say_number(rt, n);
}

// Prints a line: what is wrong with a file, and the file's name.
pub fn complain(rt: &impl Print, what: &[u8], name: &[u8]) {
    say(rt, what);
    say(rt, name);
    say(rt, b"\n");
}

// Prints the line for a file that cannot be read.
pub fn say_unreadable(rt: &impl Print, name: &[u8]) {
    complain(rt, b"unreadable ", name);
}
