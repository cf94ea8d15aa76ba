//! Streams of a few events. In what is shown each node stands as its tag, its content or the numbers
//! of its parts, and its height behind `^`; then the roots.
use crate::answers::{Pair, Row};

/// Events have their graph.
pub static GRAPHS: [Row; 15] = [
    Row {
        shows: "a stream without documents has no nodes",
        words: "",
        gives: "/",
    },
    Row {
        shows: "a scalar is one node",
        words: "--- x ...",
        gives: "str=x^0 / 0",
    },
    Row {
        shows: "empty collections have no height",
        words: "--- [ [ ] { } ] ...",
        gives: "seq^0 map^0 seq,0,1^1 / 2",
    },
    Row {
        shows: "nodes are numbered as they close, and an alias is none",
        words: "--- [ &x [ p q ] [ p q ] *x ] ...",
        gives: "str=p^0 str=q^0 seq,0,1^1 str=p^0 str=q^0 seq,3,4^1 seq,2,5,2^2 / 6",
    },
    Row {
        shows: "an alias counts with the height of its node",
        words: "--- [ &a [ x x ] &b [ *a *a ] [ *b *b ] ] ...",
        gives: "str=x^0 str=x^0 seq,0,1^1 seq,2,2^2 seq,3,3^3 seq,2,3,4^4 / 5",
    },
    Row {
        shows: "an alias stands for the inner node of its name",
        words: "--- &a [ &a x *a ] ...",
        gives: "str=x^0 seq,0,0^1 / 1",
    },
    Row {
        shows: "the outer node of a name is not bound again as it closes",
        words: "--- [ &a [ &a x ] *a ] ...",
        gives: "str=x^0 seq,0^1 seq,1,0^2 / 2",
    },
    Row {
        shows: "an anchor may be given again",
        words: "--- [ &a x *a &a y *a ] ...",
        gives: "str=x^0 str=y^0 seq,0,0,1,1^1 / 2",
    },
    Row {
        shows: "entries stand in the order of the source",
        words: "--- { k [ a ] [ a ] k } ...",
        gives: "str=k^0 str=a^0 seq,1^1 str=a^0 seq,3^1 str=k^0 map,0:2,4:5^2 / 6",
    },
    Row {
        shows: "an alias may be a key",
        words: "--- { &a k v *a w } ...",
        gives: "str=k^0 str=v^0 str=w^0 map,0:1,0:2^1 / 3",
    },
    Row {
        shows: "a key may be a collection",
        words: "--- { { } [ [ ] ] } ...",
        gives: "map^0 seq^0 seq,1^1 map,0:2^2 / 3",
    },
    Row {
        shows: "each document has its anchors",
        words: "--- &a x ... --- [ &a y *a ] ...",
        gives: "str=x^0 str=y^0 seq,1,1^1 / 0 2",
    },
    Row {
        shows: "the lone tag is no tag of a collection",
        words: "--- ! [ ! { } ] ...",
        gives: "map^0 seq,0^1 / 1",
    },
    Row {
        shows: "a core tag stands on its own kind",
        words: "--- !tag:yaml.org,2002:seq [ !tag:yaml.org,2002:map { } ] ...",
        gives: "map^0 seq,0^1 / 1",
    },
    Row {
        shows: "another tag stands on any collection",
        words: "--- !a { k !b [ ] } ...",
        gives: "str=k^0 b^0 a,0:1^1 / 2",
    },
];

/// Scalars have their tag and content.
pub static SCALARS: [Row; 6] = [
    Row {
        shows: "another tag stands on any kind",
        words: "--- [ !!x a !!x [ a ] ] ...",
        gives: "!x=a^0 str=a^0 !x,1^1 seq,0,2^2 / 3",
    },
    Row {
        shows: "plain scalars are read by the core schema",
        words: "--- [ =1 =0x1 =1.0 =~ =true =012 =a ] ...",
        gives: "int=1^0 int=1^0 float=1^0 null=null^0 bool=true^0 int=12^0 str=a^0 seq,0,1,2,3,4,5,6^1 / 7",
    },
    Row {
        shows: "the lone tag makes a text",
        words: "--- ! =12 ...",
        gives: "str=12^0 / 0",
    },
    Row {
        shows: "a tag that is written out is taken",
        words: "--- { !tag:yaml.org,2002:int 0o14 !tag:yaml.org,2002:float =1e3 } ...",
        gives: "int=12^0 float=1e+3^0 map,0:1^1 / 2",
    },
    Row {
        shows: "quoted numbers are texts",
        words: "--- 170141183460469231731687303715884105728 ...",
        gives: "str=170141183460469231731687303715884105728^0 / 0",
    },
    Row {
        shows: "the greatest int is accepted",
        words: "--- =170141183460469231731687303715884105727 ...",
        gives: "int=170141183460469231731687303715884105727^0 / 0",
    },
];

/// The first fault is told.
pub static REFUSED: [Row; 12] = [
    Row {
        shows: "an alias needs a node of its name",
        words: "--- [ *x ] ...",
        gives: "12 UndefinedAlias at event 3",
    },
    Row {
        shows: "no node is before the root",
        words: "--- *a ...",
        gives: "12 UndefinedAlias at event 2",
    },
    Row {
        shows: "a node that follows is no node before",
        words: "--- [ *a &a x ] ...",
        gives: "12 UndefinedAlias at event 3",
    },
    Row {
        shows: "anchors end with their document",
        words: "--- &a x ... --- *a ...",
        gives: "12 UndefinedAlias at event 5",
    },
    Row {
        shows: "an alias in its own node is cyclic",
        words: "--- &a [ *a ] ...",
        gives: "13 CyclicAlias at event 3",
    },
    Row {
        shows: "so is one that is deeper, and one that is a key",
        words: "--- &a [ { *a x } ] ...",
        gives: "13 CyclicAlias at event 4",
    },
    Row {
        shows: "a text's tag is none of a sequence",
        words: "--- [ !tag:yaml.org,2002:str [ ] ] ...",
        gives: "14 WrongKind at event 3",
    },
    Row {
        shows: "a sequence's tag is none of a mapping",
        words: "--- !tag:yaml.org,2002:seq { } ...",
        gives: "14 WrongKind at event 2",
    },
    Row {
        shows: "a mapping's tag is none of a sequence",
        words: "--- [ x !tag:yaml.org,2002:map [ ] ] ...",
        gives: "14 WrongKind at event 4",
    },
    Row {
        shows: "a null's tag is none of a mapping",
        words: "--- !tag:yaml.org,2002:null { } ...",
        gives: "14 WrongKind at event 2",
    },
    Row {
        shows: "the first event with a fault is told",
        words: "--- [ *x !tag:yaml.org,2002:str [ ] ] ...",
        gives: "12 UndefinedAlias at event 3",
    },
    Row {
        shows: "whichever its fault",
        words: "--- [ !tag:yaml.org,2002:str [ ] *x ] ...",
        gives: "14 WrongKind at event 3",
    },
];

/// Faults of scalars are told.
pub static REFUSED_SCALARS: [Row; 5] = [
    Row {
        shows: "a collection's tag is none of a scalar",
        words: "--- !tag:yaml.org,2002:seq x ...",
        gives: "14 WrongKind at event 2",
    },
    Row {
        shows: "a tag that is written out has its content",
        words: "--- [ a !tag:yaml.org,2002:int x ] ...",
        gives: "15 BadContent at event 4",
    },
    Row {
        shows: "an int is below 2 to the power of 127",
        words: "--- =170141183460469231731687303715884105728 ...",
        gives: "16 IntRange at event 2",
    },
    Row {
        shows: "a float's exponent is at most a million",
        words: "--- { k =1e1000001 } ...",
        gives: "17 FloatRange at event 4",
    },
    Row {
        shows: "a fault of a scalar comes in the order of events too",
        words: "--- [ =1e1000001 *x ] ...",
        gives: "17 FloatRange at event 3",
    },
];

/// Other events are no stream.
pub static NO_STREAMS: [Row; 4] = [
    Row {
        shows: "a document ends",
        words: "--- x",
        gives: "no stream",
    },
    Row {
        shows: "a mapping has a value for each key",
        words: "--- { a } ...",
        gives: "no stream",
    },
    Row {
        shows: "brackets are of one kind",
        words: "--- [ } ...",
        gives: "no stream",
    },
    Row {
        shows: "a document has one root",
        words: "--- a b ...",
        gives: "no stream",
    },
];

/// What is shown of both graphs as one.
pub static PAIRS: [Pair; 4] = [
    Pair {
        shows: "the second graph's numbers and roots are moved up",
        left: "--- [ x ] ...",
        right: "--- [ &a y *a ] ... --- z ...",
        gives: "str=x^0 seq,0^1 str=y^0 seq,2,2^1 str=z^0 / 1 3 4",
    },
    Pair {
        shows: "those of keys and values too",
        left: "--- x ...",
        right: "--- { k v } ...",
        gives: "str=x^0 str=k^0 str=v^0 map,1:2^1 / 0 3",
    },
    Pair {
        shows: "the first graph may be empty",
        left: "",
        right: "--- [ x ] ...",
        gives: "str=x^0 seq,0^1 / 1",
    },
    Pair {
        shows: "so may the second",
        left: "--- [ x ] ...",
        right: "",
        gives: "str=x^0 seq,0^1 / 1",
    },
];
