//! Worked examples of the whole profile: what a stream's canonical text is, and what is refused.
use crate::rows::Row;

pub static FIRST_1: [Row; 10] = [
    Row {
        shows: "no document",
        input: b"# c\n",
        answer: "",
    },
    Row {
        shows: "a suffix makes no document",
        input: b"...\n",
        answer: "",
    },
    Row {
        shows: "ints by their values",
        input: b"a: 1\nb: 0x1\n",
        answer: "--- {\"a\" : !!int \"1\", \"b\" : !!int \"1\"}\n",
    },
    Row {
        shows: "the core schema",
        input: b"[1, 1.0, \"1\", 012]",
        answer: "--- [!!int \"1\", !!float \"1\", \"1\", !!int \"12\"]\n",
    },
    Row {
        shows: "equal nodes and an alias",
        input: b"- &x [p, q]\n- [p, q]\n- *x\n",
        answer: "--- [&a1 [\"p\", \"q\"], *a1, *a1]\n",
    },
    Row {
        shows: "the order of entries does not count",
        input: b"a: 2\nb: 1\n",
        answer: "--- {\"a\" : !!int \"2\", \"b\" : !!int \"1\"}\n",
    },
    Row {
        shows: "a lower key first",
        input: b"{[a]: 1, b: 2}",
        answer: "--- {\"b\" : !!int \"2\", [\"a\"] : !!int \"1\"}\n",
    },
    Row {
        shows: "contents by their bytes",
        input: b"{2: a, 10: b}",
        answer: "--- {!!int \"10\" : \"b\", !!int \"2\" : \"a\"}\n",
    },
    Row {
        shows: "keys by tag and then content",
        input: b"{b: 1, 2: x, ~: y, true: z}",
        answer: "--- {!!bool \"true\" : \"z\", !!int \"2\" : \"x\", !!null \"null\" : \"y\", \"b\" : !!int \"1\"}\n",
    },
    Row {
        shows: "keep",
        input: b"x: |+\n  a\n\n",
        answer: "--- {\"x\" : \"a\\n\\n\"}\n",
    },
];

pub static FIRST_2: [Row; 11] = [
    Row {
        shows: "clip",
        input: b"x: |\n  a\n\n",
        answer: "--- {\"x\" : \"a\\n\"}\n",
    },
    Row {
        shows: "strip",
        input: b"x: |-\n  a\n\n",
        answer: "--- {\"x\" : \"a\"}\n",
    },
    Row {
        shows: "a comment after a block scalar's header line",
        input: b"x: |\n# c\ny: b\n",
        answer: "--- {\"x\" : \"\", \"y\" : \"b\"}\n",
    },
    Row {
        shows: "folded lines",
        input: b"--- >\n a\n b\n\n c\n",
        answer: "--- \"a b\\nc\\n\"\n",
    },
    Row {
        shows: "a spaced line",
        input: b"--- >\n a\n  b\n c\n",
        answer: "--- \"a\\n b\\nc\\n\"\n",
    },
    Row {
        shows: "aliases of aliases",
        input: b"- &a [x, x]\n- &b [*a, *a]\n- [*b, *b]\n",
        answer: "--- [&a1 [\"x\", \"x\"], &a2 [*a1, *a1], [*a2, *a2]]\n",
    },
    Row {
        shows: "an anchor defined again",
        input: b"&a [&a x, *a]",
        answer: "--- [\"x\", \"x\"]\n",
    },
    Row {
        shows: "floats are exact decimals",
        input: b"[.5, 5e-1, 0.50, -0.0, 0e99999999]",
        answer: "--- [!!float \"5e-1\", !!float \"5e-1\", !!float \"5e-1\", !!float \"0\", !!float \"0\"]\n",
    },
    Row {
        shows: "the greatest exponent",
        input: b"1e1000000",
        answer: "--- !!float \"1e+1000000\"\n",
    },
    Row {
        shows: "the greatest int",
        input: b"170141183460469231731687303715884105727",
        answer: "--- !!int \"170141183460469231731687303715884105727\"\n",
    },
    Row {
        shows: "a string of digits",
        input: b"\"170141183460469231731687303715884105728\"",
        answer: "--- \"170141183460469231731687303715884105728\"\n",
    },
];

pub static SECOND_1: [Row; 10] = [
    Row {
        shows: "a handle",
        input: b"%TAG !e! tag:example.com,2000:\n---\n!e!x%21 v\n",
        answer: "--- !<tag:example.com,2000:x!> \"v\"\n",
    },
    Row {
        shows: "tags are compared decoded",
        input: b"!<!%c3%a9> v",
        answer: "--- !<!%C3%A9> \"v\"\n",
    },
    Row {
        shows: "empty documents",
        input: b"---\n---\n",
        answer: "--- !!null \"null\"\n--- !!null \"null\"\n",
    },
    Row {
        shows: "sharing ends with its document",
        input: b"--- [p]\n--- [p]\n",
        answer: "--- [\"p\"]\n--- [\"p\"]\n",
    },
    Row {
        shows: "a single pair",
        input: b"[a: 1, b]",
        answer: "--- [{\"a\" : !!int \"1\"}, \"b\"]\n",
    },
    Row {
        shows: "a key and its value",
        input: b"{[a]: [a]}",
        answer: "--- {&a1 [\"a\"] : *a1}\n",
    },
    Row {
        shows: "a value and a later key",
        input: b"{k: [a], [a]: k}",
        answer: "--- {\"k\" : &a1 [\"a\"], *a1 : \"k\"}\n",
    },
    Row {
        shows: "a quote in single quotes",
        input: b"'it''s'",
        answer: "--- \"it's\"\n",
    },
    Row {
        shows: "an escaped break",
        input: b"\"a \n  b\\\n  c\"",
        answer: "--- \"a bc\"\n",
    },
    Row {
        shows: "a plain scalar over lines",
        input: b"a\n\nb\nc\n",
        answer: "--- \"a\\nb c\"\n",
    },
];

pub static SECOND_2: [Row; 11] = [
    Row {
        shows: "compact collections",
        input: b"- - a\n  - b: c\n    d: e\n",
        answer: "--- [[\"a\", {\"b\" : \"c\", \"d\" : \"e\"}]]\n",
    },
    Row {
        shows: "a sequence in its key's column",
        input: b"k:\n- x\nl: y\n",
        answer: "--- {\"k\" : [\"x\"], \"l\" : \"y\"}\n",
    },
    Row {
        shows: "tags of one's own",
        input: b"[!x a, !x [a]]",
        answer: "--- [!<!x> \"a\", !<!x> [\"a\"]]\n",
    },
    Row {
        shows: "the lone tag",
        input: b"! 12",
        answer: "--- \"12\"\n",
    },
    Row {
        shows: "keys after a question mark, and empty keys",
        input: b"{? a : b, : d}",
        answer: "--- {!!null \"null\" : \"d\", \"a\" : \"b\"}\n",
    },
    Row {
        shows: "the same in a sequence",
        input: b"[? a : b, : c, ?  ]",
        answer: "--- [{\"a\" : \"b\"}, {!!null \"null\" : \"c\"}, {!!null \"null\" : !!null \"null\"}]\n",
    },
    Row {
        shows: "a key over two lines",
        input: b"[? a\n : b]",
        answer: "--- [{\"a\" : \"b\"}]\n",
    },
    Row {
        shows: "nothing but a colon",
        input: b"{:}",
        answer: "--- {!!null \"null\" : !!null \"null\"}\n",
    },
    Row {
        shows: "the outer and the inner properties",
        input: b"&a\n!t k: v",
        answer: "--- {!<!t> \"k\" : \"v\"}\n",
    },
    Row {
        shows: "a block spelling",
        input: b"--- \n- \"a\"\n- \n - !!int \"1\"\n",
        answer: "--- [\"a\", [!!int \"1\"]]\n",
    },
    Row {
        shows: "an ordinary file",
        input: b"# service\nname: web\nports:\n  - 80\n  - 0x1F90\nenv: &env\n  DEBUG: yes\n  PATH: |\n    /bin\ncopy: *env\n",
        answer: "--- {\"copy\" : &a1 {\"DEBUG\" : \"yes\", \"PATH\" : \"/bin\\n\"}, \"env\" : *a1, \"name\" : \"web\", \"ports\" : [!!int \"80\", !!int \"8080\"]}\n",
    },
];

pub static REFUSED_1: [Row; 7] = [
    Row {
        shows: "an alias to an open node",
        input: b"&a [*a]",
        answer: "13 CyclicAlias at event 3",
    },
    Row {
        shows: "an alias without a node",
        input: b"[*x]",
        answer: "12 UndefinedAlias at event 3",
    },
    Row {
        shows: "an exponent too large",
        input: b"1e1000001",
        answer: "17 FloatRange at event 2",
    },
    Row {
        shows: "an int too large",
        input: b"170141183460469231731687303715884105728",
        answer: "16 IntRange at event 2",
    },
    Row {
        shows: "a handle that is not bound",
        input: b"---\n!e!x%21 v\n",
        answer: "10 UnknownHandle at byte 4",
    },
    Row {
        shows: "two colons on a line",
        input: b"a: b: c",
        answer: "4 Syntax at byte 4",
    },
    Row {
        shows: "a bracket not closed",
        input: b"[a",
        answer: "4 Syntax at byte 2",
    },
];

pub static REFUSED_2: [Row; 8] = [
    Row {
        shows: "a tab",
        input: b"a:\tb",
        answer: "5 Tab at byte 2",
    },
    Row {
        shows: "another version",
        input: b"%YAML 1.3\n---\n",
        answer: "9 BadDirective at byte 0",
    },
    Row {
        shows: "no int",
        input: b"!!int x",
        answer: "15 BadContent at event 2",
    },
    Row {
        shows: "no sequence",
        input: b"!!seq x",
        answer: "14 WrongKind at event 2",
    },
    Row {
        shows: "a key over two lines without its mark",
        input: b"[a\n : b]",
        answer: "4 Syntax at byte 4",
    },
    Row {
        shows: "two null keys",
        input: b"{: a, ? }",
        answer: "19 EqualKeys in node 4, entries 0 and 1",
    },
    Row {
        shows: "a bad tag",
        input: b"!<a b> x",
        answer: "11 BadTag at byte 0",
    },
    Row {
        shows: "a surrogate",
        input: b"\"\\ud800\"",
        answer: "8 BadEscape at byte 1",
    },
];
