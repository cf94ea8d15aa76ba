//! Ranks of the nodes of streams. In what is shown the nodes of one rank stand together, `=` between
//! them, and ranks in their order, `<` between them; then each nonempty mapping with its entries in the
//! order of their keys, and the visits.
use crate::answers::{Pair, Row};

/// Trees have their ranks.
pub static RANKS: [Row; 12] = [
    Row {
        shows: "a graph without nodes has no ranks",
        words: "",
        gives: "; 0 visits",
    },
    Row {
        shows: "equal trees have one rank, and higher ones come later",
        words: "--- [ [ a ] [ a ] a ] ...",
        gives: "0=2=4 < 1=3 < 5; 6 visits",
    },
    Row {
        shows: "an alias is no node",
        words: "--- [ &x [ p q ] [ p q ] *x ] ...",
        gives: "0=3 < 1=4 < 2=5 < 6; 7 visits",
    },
    Row {
        shows: "scalars stand before sequences and these before mappings of one height",
        words: "--- [ { } [ ] x ] ...",
        gives: "2 < 1 < 0 < 3; 4 visits",
    },
    Row {
        shows: "scalars stand in the order of their tags, then of their contents",
        words: "--- [ b =2 =10 =~ =true a ] ...",
        gives: "4 < 2 < 1 < 3 < 5 < 0 < 6; 7 visits",
    },
    Row {
        shows: "one value in two spellings is one rank, an int and a float are two",
        words: "--- [ =1 =0x1 =1.0 1 ] ...",
        gives: "2 < 0=1 < 3 < 4; 5 visits",
    },
    Row {
        shows: "a tag tells nodes of one content",
        words: "--- [ !!x a a !!x [ a ] [ a ] ] ...",
        gives: "0 < 1=2=4 < 3 < 5 < 6; 7 visits",
    },
    Row {
        shows: "a sequence that begins another stands before it",
        words: "--- [ [ a b ] [ a ] [ a a ] ] ...",
        gives: "0=3=5=6 < 1 < 4 < 7 < 2 < 8; 9 visits",
    },
    Row {
        shows: "entries stand in the order of their keys",
        words: "--- { b x a y } ...",
        gives: "2 < 0 < 1 < 3 < 4; 4 2:3 0:1; 5 visits",
    },
    Row {
        shows: "a scalar as a key stands before a collection",
        words: "--- { [ a ] =1 b =2 } ...",
        gives: "2 < 4 < 0 < 3 < 1 < 5; 5 3:4 1:2; 6 visits",
    },
    Row {
        shows: "mappings are the same in every order of their entries",
        words: "--- [ { a x b y } { b y a x } ] ...",
        gives: "0=7 < 2=5 < 1=8 < 3=6 < 4=9 < 10; 4 0:1 2:3; 9 7:8 5:6; 11 visits",
    },
    Row {
        shows: "documents are ranked together",
        words: "--- [ a ] ... --- [ a ] ...",
        gives: "0=2 < 1=3; 4 visits",
    },
];

/// Equal keys are told.
pub static EQUAL_KEYS: [Row; 9] = [
    Row {
        shows: "one value in two spellings is one key",
        words: "--- { =1 a =0x1 b } ...",
        gives: "19 EqualKeys in node 4, entries 0 and 1",
    },
    Row {
        shows: "an int and a float are two keys",
        words: "--- { =1 a =1.0 b } ...",
        gives: "2 < 0 < 1 < 3 < 4; 4 2:3 0:1; 5 visits",
    },
    Row {
        shows: "the least second entry is told, and with it the least first one",
        words: "--- { a x b x b x a x a x } ...",
        gives: "19 EqualKeys in node 10, entries 1 and 2",
    },
    Row {
        shows: "of three equal keys the first two are told",
        words: "--- { a x a x a x } ...",
        gives: "19 EqualKeys in node 6, entries 0 and 1",
    },
    Row {
        shows: "the mapping of least height is told",
        words: "--- [ { [ a ] x [ a ] x } { a x a x } ] ...",
        gives: "19 EqualKeys in node 11, entries 0 and 1",
    },
    Row {
        shows: "of one height the one that closed first",
        words: "--- [ { a x a x } { b x b x } ] ...",
        gives: "19 EqualKeys in node 4, entries 0 and 1",
    },
    Row {
        shows: "an alias to a key is the same key",
        words: "--- { &a k v *a w } ...",
        gives: "19 EqualKeys in node 3, entries 0 and 1",
    },
    Row {
        shows: "a node that aliases stand for is told once",
        words: "--- [ x &a { p q p q } *a *a ] ...",
        gives: "19 EqualKeys in node 5, entries 0 and 1",
    },
    Row {
        shows: "keys that are collections are the same by their parts",
        words: "--- { { a =1 b =2 } x { b =0x2 a =01 } y } ...",
        gives: "19 EqualKeys in node 12, entries 0 and 1",
    },
];

/// What is shown of the ranks of both graphs as one.
pub static PAIRS: [Pair; 3] = [
    Pair {
        shows: "equal nodes of two graphs have one rank",
        left: "--- [ a [ b ] ] ...",
        right: "--- [ [ b ] a ] ...",
        gives: "0=6 < 1=4 < 2=5 < 3 < 7; 8 visits",
    },
    Pair {
        shows: "equal keys of the second graph are told with their number in both",
        left: "--- { a x } ...",
        right: "--- { a x a y } ...",
        gives: "19 EqualKeys in node 7, entries 0 and 1",
    },
    Pair {
        shows: "the lower mapping of both sides is told",
        left: "--- { [ a ] x [ a ] y } ...",
        right: "--- { a x a y } ...",
        gives: "19 EqualKeys in node 11, entries 0 and 1",
    },
];
