// Worked examples of `stages`, byte for byte.

/// An example: a text, and what is written of it in three parts, each the titles of some stages and the program at each
/// of them.
pub type StageExample = (&'static str, [(&'static str, &'static str); 3]);

/// The smallest program, which is the same from the first stage on; one with a global and a trap; a copy, which two
/// stages remove; and two units, of which one takes three rounds and the other two, so that at the third round this one
/// shows its second.
pub const STAGE_EXAMPLES: [StageExample; 4] = [
    (
        "f: begin\nL: end\n",
        [
            ("source", "f: begin\nend\n"),
            (THROUGH_MOTION, "f: begin\nreturn 0\nend\n"),
            ("round 1, result", "f: begin\nreturn 0\nend\n"),
        ],
    ),
    (
        SHARED,
        [
            ("source", SHARED),
            (THROUGH_MOTION, SHARED_AND_RETURN),
            ("round 1, result", SHARED_AND_RETURN),
        ],
    ),
    (
        COPY,
        [
            ("source, lower, clean, fold, number", COPY),
            (
                FROM_COPIES,
                "f: begin\nreceive b(val)\nc <- b\nreturn b\nend\n",
            ),
            (
                "round 1, round 2, result",
                "f: begin\nreceive b(val)\nreturn b\nend\n",
            ),
        ],
    ),
    (
        CHAIN,
        [
            (UP_TO_ROUNDS, CHAIN),
            ("round 1", CHAIN_AFTER_ONE),
            ("round 2, round 3, result", CHAIN_AFTER_TWO),
        ],
    ),
];

/// The stages from the first after the source to the last before the rounds.
const THROUGH_MOTION: &str =
    "lower, clean, fold, number, copies, split, motion, copies after motion";

/// Those from copies on.
const FROM_COPIES: &str = "copies, split, motion, copies after motion";

/// All before the rounds.
const UP_TO_ROUNDS: &str =
    "source, lower, clean, fold, number, copies, split, motion, copies after motion";

/// A global, and a trap.
const SHARED: &str = "global g\nf: begin\nreceive a(val)\nif a trap 4\ng <- a + 1\nend\n";

/// The same with its return.
const SHARED_AND_RETURN: &str =
    "global g\nf: begin\nreceive a(val)\nif a trap 4\ng <- a + 1\nreturn 0\nend\n";

/// A copy.
const COPY: &str = "f: begin\nreceive b(val)\nc <- b\nreturn c\nend\n";

/// A sum of a product, of which one way alone has need.
const CHAIN: &str = "\
main: begin
receive a(val)
x <- a * 2
y <- x + 1
if a goto L1
return a
L1: return y
end
f: begin
c <- 1
return 2
end
";

/// The same after one round: the sum has sunk.
const CHAIN_AFTER_ONE: &str = "\
main: begin
receive a(val)
x <- a * 2
if a goto L1
return a
L1: y <- x + 1
return y
end
f: begin
return 2
end
";

/// The same after two: so has the product.
const CHAIN_AFTER_TWO: &str = "\
main: begin
receive a(val)
if a goto L1
return a
L1: x <- a * 2
y <- x + 1
return y
end
f: begin
return 2
end
";
