//! Flow mappings, anchors and aliases, and keys by their meaning.
use crate::rows::{Pair, Row};

pub static READ_1: [Row; 9] = [
    Row {
        shows: "entries stand in the order of their keys",
        input: b"--- {\"b\" : \"1\", \"a\" : [\"x\"], \"c\":[\"x\"]}",
        answer: "--- {\"a\" : &a1 [\"x\"], \"b\" : \"1\", \"c\" : *a1}\n",
    },
    Row {
        shows: "an alias stands for its node, and equal nodes have one anchor",
        input: b"--- [&q [\"p\"], [\"p\"], *q]",
        answer: "--- [&a1 [\"p\"], *a1, *a1]\n",
    },
    Row {
        shows: "a node and its alias have one anchor",
        input: b"--- [&x [\"p\", \"q\"], [\"p\", \"q\"], *x]",
        answer: "--- [&a1 [\"p\", \"q\"], *a1, *a1]\n",
    },
    Row {
        shows: "the order of entries does not count",
        input: b"--- {\"b\": \"1\", \"a\": \"2\"}",
        answer: "--- {\"a\" : \"2\", \"b\" : \"1\"}\n",
    },
    Row {
        shows: "a lower key stands first",
        input: b"--- {[\"a\"] : \"1\", \"b\" : \"2\"}",
        answer: "--- {\"b\" : \"2\", [\"a\"] : \"1\"}\n",
    },
    Row {
        shows: "keys are ordered by their bytes",
        input: b"--- {\"2\": \"a\", \"10\": \"b\"}",
        answer: "--- {\"10\" : \"b\", \"2\" : \"a\"}\n",
    },
    Row {
        shows: "a text that begins another stands first",
        input: b"--- {\"ab\":\"1\",\"a\":\"2\",\"\":\"3\",\"b\":\"4\"}",
        answer: "--- {\"\" : \"3\", \"a\" : \"2\", \"ab\" : \"1\", \"b\" : \"4\"}\n",
    },
    Row {
        shows: "scalars stand before sequences, and sequences before mappings",
        input: b"--- {{}:\"1\",[]:\"2\",\"z\":\"3\"}",
        answer: "--- {\"z\" : \"3\", [] : \"2\", {} : \"1\"}\n",
    },
    Row {
        shows: "height counts before kind",
        input: b"--- {[\"a\"]:\"1\",{}:\"2\"}",
        answer: "--- {{} : \"2\", [\"a\"] : \"1\"}\n",
    },
];

pub static READ_2: [Row; 9] = [
    Row {
        shows: "lists are compared item by item",
        input: b"--- {[\"b\"]:\"1\",[\"a\",\"b\"]:\"2\",[\"a\"]:\"3\"}",
        answer: "--- {[\"a\"] : \"3\", [\"a\", \"b\"] : \"2\", [\"b\"] : \"1\"}\n",
    },
    Row {
        shows: "mappings are compared by key and then by value",
        input: b"--- {{\"a\":\"2\"}:\"x\",{\"b\":\"1\"}:\"y\",{\"a\":\"1\"}:\"z\"}",
        answer: "--- {{\"a\" : \"1\"} : \"z\", {\"a\" : \"2\"} : \"x\", {\"b\" : \"1\"} : \"y\"}\n",
    },
    Row {
        shows: "a longer mapping may stand first",
        input: b"--- {{\"b\":\"1\"}:\"x\",{\"a\":\"1\",\"c\":\"1\"}:\"y\"}",
        answer: "--- {{\"a\" : \"1\", \"c\" : \"1\"} : \"y\", {\"b\" : \"1\"} : \"x\"}\n",
    },
    Row {
        shows: "aliases of aliases",
        input: b"--- [&a [\"x\", \"x\"], &b [*a, *a], [*b, *b]]",
        answer: "--- [&a1 [\"x\", \"x\"], &a2 [*a1, *a1], [*a2, *a2]]\n",
    },
    Row {
        shows: "an alias stands for the last node that began before it with its name",
        input: b"--- &a [&a \"x\", *a]",
        answer: "--- [\"x\", \"x\"]\n",
    },
    Row {
        shows: "an anchor may be defined again",
        input: b"--- [&a \"x\", &a \"y\", *a]",
        answer: "--- [\"x\", \"y\", \"y\"]\n",
    },
    Row {
        shows: "an anchor that nothing names is dropped",
        input: b"--- &a [&b \"x\", &c {}]",
        answer: "--- [\"x\", {}]\n",
    },
    Row {
        shows: "a name holds what is no white, break or flow indicator",
        input: b"--- [&a:b*\"' \"x\", *a:b*\"' , *a:b*\"']",
        answer: "--- [\"x\", \"x\", \"x\"]\n",
    },
    Row {
        shows: "a key and its value",
        input: b"--- {[\"a\"] : [\"a\"]}",
        answer: "--- {&a1 [\"a\"] : *a1}\n",
    },
];

pub static READ_3: [Row; 10] = [
    Row {
        shows: "a value and a later key",
        input: b"--- {\"k\" : [\"a\"], [\"a\"] : \"k\"}",
        answer: "--- {\"k\" : &a1 [\"a\"], *a1 : \"k\"}\n",
    },
    Row {
        shows: "values in the order of their keys",
        input: b"--- {\"x\" : [\"1\"], \"a\" : [\"1\"]}",
        answer: "--- {\"a\" : &a1 [\"1\"], \"x\" : *a1}\n",
    },
    Row {
        shows: "mappings are equal as sets",
        input: b"--- [{\"a\":\"1\",\"b\":\"2\"},{\"b\":\"2\",\"a\":\"1\"}]",
        answer: "--- [&a1 {\"a\" : \"1\", \"b\" : \"2\"}, *a1]\n",
    },
    Row {
        shows: "anchors count in the order of first places",
        input: b"--- [[\"p\"],[\"q\"],[\"q\"],[\"p\"]]",
        answer: "--- [&a1 [\"p\"], &a2 [\"q\"], *a2, *a1]\n",
    },
    Row {
        shows: "a repeated node is not entered",
        input: b"--- [[[\"p\"]],[[\"p\"]],[\"p\"]]",
        answer: "--- [&a1 [&a2 [\"p\"]], *a1, *a2]\n",
    },
    Row {
        shows: "an empty mapping is short",
        input: b"--- [{},{ },[],[]]",
        answer: "--- [{}, {}, [], []]\n",
    },
    Row {
        shows: "a comma may follow the last entry",
        input: b"--- {\"a\" : \"b\" , }",
        answer: "--- {\"a\" : \"b\"}\n",
    },
    Row {
        shows: "a value may follow its colon at once",
        input: b"--- {\"a\":\"b\",[\"c\"]:[\"d\"]}",
        answer: "--- {\"a\" : \"b\", [\"c\"] : [\"d\"]}\n",
    },
    Row {
        shows: "mappings nest",
        input: b"--- [{\"a\":{\"b\":{\"c\":[]}}}]",
        answer: "--- [{\"a\" : {\"b\" : {\"c\" : []}}}]\n",
    },
    Row {
        shows: "a byte order mark and anchors",
        input: b"\xef\xbb\xbf--- [&\xc3\xa9 [\"a\"], *\xc3\xa9]",
        answer: "--- [&a1 [\"a\"], *a1]\n",
    },
];

pub static REFUSED_1: [Row; 10] = [
    Row {
        shows: "an alias without a node",
        input: b"--- [*x]",
        answer: "12 UndefinedAlias at event 3",
    },
    Row {
        shows: "an alias before its node",
        input: b"--- [*x, &x \"a\"]",
        answer: "12 UndefinedAlias at event 3",
    },
    Row {
        shows: "an alias to a sequence that is open",
        input: b"--- &a [*a]",
        answer: "13 CyclicAlias at event 3",
    },
    Row {
        shows: "an alias to a mapping that is open",
        input: b"--- [&m {\"k\" : *m}]",
        answer: "13 CyclicAlias at event 5",
    },
    Row {
        shows: "aliases are judged in the order of events",
        input: b"--- &a [*a, *b]",
        answer: "13 CyclicAlias at event 3",
    },
    Row {
        shows: "aliases are judged before keys",
        input: b"--- [{\"a\":\"1\",\"a\":\"2\"}, *x]",
        answer: "12 UndefinedAlias at event 9",
    },
    Row {
        shows: "a key without a value has null",
        input: b"--- {\"a\"}",
        answer: "--- {\"a\" : !!null \"null\"}\n",
    },
    Row {
        shows: "so has a colon without one",
        input: b"--- {\"a\":}",
        answer: "--- {\"a\" : !!null \"null\"}\n",
    },
    Row {
        shows: "a comma needs an entry before it",
        input: b"--- {,}",
        answer: "4 Syntax at byte 5",
    },
    Row {
        shows: "two entries need a comma between them",
        input: b"--- {\"a\":\"1\" \"b\":\"2\"}",
        answer: "4 Syntax at byte 13",
    },
];

pub static REFUSED_2: [Row; 11] = [
    Row {
        shows: "a brace that is not closed",
        input: b"--- {\"a\":\"1\"",
        answer: "4 Syntax at byte 12",
    },
    Row {
        shows: "a brace that a bracket closes",
        input: b"--- {\"a\":\"1\"]",
        answer: "4 Syntax at byte 12",
    },
    Row {
        shows: "a tab before a value",
        input: b"--- {\"a\":\t\"1\"}",
        answer: "5 Tab at byte 9",
    },
    Row {
        shows: "an anchor without a name",
        input: b"--- & \"a\"",
        answer: "4 Syntax at byte 5",
    },
    Row {
        shows: "an anchor alone stands on null",
        input: b"--- &a",
        answer: "--- !!null \"null\"\n",
    },
    Row {
        shows: "an anchor and its node need a space",
        input: b"--- &a[]",
        answer: "4 Syntax at byte 6",
    },
    Row {
        shows: "an anchor on an alias",
        input: b"--- [&a \"x\", &b *a]",
        answer: "4 Syntax at byte 16",
    },
    Row {
        shows: "a colon after an alias needs a space before it",
        input: b"--- {&k \"a\" : \"1\", *k: \"2\"}",
        answer: "4 Syntax at byte 23",
    },
    Row {
        shows: "a single pair is a mapping",
        input: b"--- [\"a\" : \"b\"]",
        answer: "--- [{\"a\" : \"b\"}]\n",
    },
    Row {
        shows: "the tag of a string is not written",
        input: b"--- !!str \"a\"",
        answer: "--- \"a\"\n",
    },
    Row {
        shows: "a colon after an alias needs a space after it",
        input: b"--- {&k \"a\" : \"1\", *k :\"2\"}",
        answer: "4 Syntax at byte 22",
    },
];

pub static PAIRS: [Pair; 6] = [
    Pair {
        shows: "mappings are sets",
        left: b"--- {\"a\":\"1\",\"b\":\"2\"}",
        right: b"--- {\"b\":\"2\",\"a\":\"1\"}",
        answer: "same",
    },
    Pair {
        shows: "aliases are unfolded",
        left: b"--- [&a [\"x\"], *a]",
        right: b"--- [[\"x\"],[\"x\"]]",
        answer: "same",
    },
    Pair {
        shows: "values count",
        left: b"--- {\"a\":\"1\"}",
        right: b"--- {\"a\":\"2\"}",
        answer: "different",
    },
    Pair {
        shows: "the number of entries counts",
        left: b"--- {\"a\":\"1\"}",
        right: b"--- {\"a\":\"1\",\"b\":\"1\"}",
        answer: "different",
    },
    Pair {
        shows: "an empty mapping is no empty sequence",
        left: b"--- {}",
        right: b"--- []",
        answer: "different",
    },
    Pair {
        shows: "the right is read before keys are compared",
        left: b"--- {\"a\":\"1\",\"a\":\"2\"}",
        right: b"--- [",
        answer: "right: 4 Syntax at byte 5",
    },
];

pub static KEYS: [Row; 9] = [
    Row {
        shows: "keys are equal by their meaning, escapes read",
        input: b"--- {\"a\" : \"1\", \"\\x61\" : \"2\"}",
        answer: "19 EqualKeys in node 4, entries 0 and 1",
    },
    Row {
        shows: "equal collections as keys",
        input: b"--- {[\"a\"]:\"1\",[\"a\"]:\"2\"}",
        answer: "19 EqualKeys in node 6, entries 0 and 1",
    },
    Row {
        shows: "the pair with the least second entry is named",
        input: b"--- {\"a\":\"1\",\"b\":\"2\",\"b\":\"3\",\"a\":\"4\"}",
        answer: "19 EqualKeys in node 8, entries 1 and 2",
    },
    Row {
        shows: "of these the least first entry is named",
        input: b"--- {\"a\":\"1\",\"b\":\"2\",\"a\":\"3\",\"a\":\"4\"}",
        answer: "19 EqualKeys in node 8, entries 0 and 2",
    },
    Row {
        shows: "the lowest mapping is named",
        input: b"--- [{[\"x\"]:\"1\",[\"x\"]:\"2\"},{\"a\":\"1\",\"a\":\"2\"}]",
        answer: "19 EqualKeys in node 11, entries 0 and 1",
    },
    Row {
        shows: "of equally low mappings the first to close is named",
        input: b"--- [{\"b\":\"1\",\"b\":\"2\"},{\"a\":\"1\",\"a\":\"2\"}]",
        answer: "19 EqualKeys in node 4, entries 0 and 1",
    },
    Row {
        shows: "two spellings of one int",
        input: b"{1: a, 0x1: b}",
        answer: "19 EqualKeys in node 4, entries 0 and 1",
    },
    Row {
        shows: "two styles of one string",
        input: b"{a: 1, \"a\": 2}",
        answer: "19 EqualKeys in node 4, entries 0 and 1",
    },
    Row {
        shows: "a key and an alias to it",
        input: b"--- {&k \"a\" : \"1\", *k : \"2\"}",
        answer: "19 EqualKeys in node 3, entries 0 and 1",
    },
];

pub static KEY_PAIRS: [Pair; 5] = [
    Pair {
        shows: "equal keys on both sides, the lower mapping on the right",
        left: b"--- {[\"x\"]:\"1\",[\"x\"]:\"2\"}",
        right: b"--- {\"a\":\"1\",\"a\":\"2\"}",
        answer: "right: 19 EqualKeys in node 4, entries 0 and 1",
    },
    Pair {
        shows: "equal keys on both sides, the lower mapping on the left",
        left: b"--- {\"a\":\"1\",\"a\":\"2\"}",
        right: b"--- {[\"x\"]:\"1\",[\"x\"]:\"2\"}",
        answer: "left: 19 EqualKeys in node 4, entries 0 and 1",
    },
    Pair {
        shows: "equal keys on both sides, as low on either",
        left: b"--- {\"a\":\"1\",\"b\":\"2\",\"a\":\"3\"}",
        right: b"--- {\"a\":\"1\",\"a\":\"2\"}",
        answer: "left: 19 EqualKeys in node 6, entries 0 and 2",
    },
    Pair {
        shows: "equal keys on the right",
        left: b"--- {\"a\":\"1\"}",
        right: b"--- {\"a\":\"1\",\"a\":\"2\"}",
        answer: "right: 19 EqualKeys in node 4, entries 0 and 1",
    },
    Pair {
        shows: "equal keys on the left",
        left: b"--- {\"a\":\"1\",\"a\":\"2\"}",
        right: b"--- {\"a\":\"1\"}",
        answer: "left: 19 EqualKeys in node 4, entries 0 and 1",
    },
];
