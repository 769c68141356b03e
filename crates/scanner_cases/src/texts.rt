// The texts that the scanner reads, each with its label.
pub const TEXTS: [(&str, &[u8]); 12] = [
    ("blanks and a comment", b" \t\n\x0c\r\x00% no token ( { \n"),
    ("comment at the end", b"a % no more"),
    (
        "integers",
        b"0 -0 +7 007 -2147483648 2147483647 2147483648 -2147483649 1",
    ),
    ("names", b"+ - --1 1.5 16#FF a/b/ / [x]"),
    ("high bytes and NUL", b"\xff\x80\x00a"),
    (
        "nested string and escapes",
        b"(a(b)c)(\\n\\r\\t\\\\\\(\\))(\\101\\q)",
    ),
    ("line ends", b"(x\r\ny\rz\n\r)(p\\\r\nq\\\nr)()"),
    ("strays", b") < > } 1"),
    ("unfinished string", b"(ab\\"),
    ("unfinished procedure", b"{1 {2} a"),
    ("procedures", b"{1 {2 (ab)} /x {} (c) add} {}"),
    ("stray inside", b"{1 ) 2} 3"),
];

// Texts at a limit: a front, a part that comes so often, and an end.
pub const EDGES: [(&str, &[u8], &[u8], usize, &[u8]); 16] = [
    ("a run of 128", b"", b"a", 128, b" b"),
    ("a run of 129", b"", b"a", 129, b" b"),
    ("128 after a slash", b"/", b"a", 128, b"("),
    ("129 digits", b"", b"1", 129, b""),
    ("16 deep", b"", b"{", 16, b"}}}}}}}}}}}}}}}}"),
    ("17 deep", b"", b"{", 17, b""),
    ("512 elements", b"{", b"1 ", 512, b"}"),
    ("513 elements", b"{", b"1 ", 513, b"}"),
    ("512 procedures", b"{", b"{}", 512, b"}"),
    ("513 procedures", b"{", b"{}", 513, b"}"),
    ("1024 string bytes", b"(", b"s", 1024, b")"),
    ("1025 string bytes", b"(", b"s", 1024, b"s)"),
    ("1025 with a line end", b"(", b"s", 1024, b"\r\n)"),
    ("1024 in two strings", b"{(a)(", b"s", 1023, b")}"),
    ("1025 in two strings", b"{(a)(", b"s", 1024, b")}"),
    ("16384 braces", b"", b"{", 16384, b""),
];
