// The worked examples of code motion, byte for byte, in the form of the other examples, and one whose text is too long
// for the table.
use std::alloc::{AllocError, Global};

pub const MOTION_EXAMPLES: &str = "\
# an expression that one side of a diamond evaluates
main: begin
receive a(val)
if ! a goto L1
x <- a * 3
print x
goto L2
L1: print a
L2: y <- a * 3
return y
end
$ move
@ 0
main: begin
receive a(val)
if ! a goto L2
h1 <- a * 3
x <- h1
print x
L1: y <- h1
return y
L2: print a
h1 <- a * 3
goto L1
end
$ optimise
@ 0
main: begin
receive a(val)
if ! a goto L2
h1 <- a * 3
print h1
L1: return h1
L2: print a
h1 <- a * 3
goto L1
end
# a loop whose test stands first keeps its expression
main: begin
receive a(val)
receive b(val)
receive n(val)
L1: if i >= n goto L2
x <- a + b
print x
i <- i + 1
goto L1
L2: return i
end
$ move
@ same
# a loop whose test stands last, and the run of what is moved
main: begin
receive a(val)
receive b(val)
L1: x <- a + b
i <- i + 1
if i < x goto L1
return i
end
$ move
@ 0
main: begin
receive a(val)
receive b(val)
h1 <- a + b
L1: x <- h1
i <- i + 1
if i < x goto L1
return i
end
$ | run 100 2 1
@ 0
result 3
evals 4
$ run 100 2 1
@ 0
result 3
evals 6
# a loop without exit
main: begin
receive a(val)
L1: x <- a + 1
a <- x
goto L1
end
$ move
@ same
# names in use
main: begin
receive h1(val)
h2 <- h1 * h1
print h2
h3 <- h1 * h1
return h3
end
$ move
@ 0
main: begin
receive h1(val)
h4 <- h1 * h1
h2 <- h4
print h2
h3 <- h4
return h3
end
# three expressions before one loop, in the order of their first uses, where two names are taken
main: begin
receive h1(val)
receive h3(val)
L1: x <- h1 + h3
y <- h1 * h3
z <- - h1
if z goto L1
end
$ move
@ 0
main: begin
receive h1(val)
receive h3(val)
h2 <- h1 + h3
h4 <- h1 * h3
h5 <- - h1
L1: x <- h2
y <- h4
z <- h5
if z goto L1
return 0
end
# an expression that is evaluated once
main: begin
receive a(val)
receive b(val)
x <- a * b
return x
end
$ move
@ same
# where the temporary of a diamond is held
main: begin
receive a(val)
receive b(val)
if a goto L1
print a
goto L2
L1: x <- a + b
print x
L2: y <- a + b
print y
return y
end
$ ranges
@ 0
unit main
h1 <- a + b inserted 2 replaced 2 held 4
# and that of a loop whose test stands last
main: begin
receive a(val)
receive b(val)
L1: x <- a + b
i <- i + 1
if i < x goto L1
return i
end
$ ranges
@ 0
unit main
h1 <- a + b inserted 1 replaced 1 held 5
# where nothing is inserted, no line stands behind the unit
main: begin
receive a(val)
receive b(val)
receive n(val)
L1: if i >= n goto L2
x <- a + b
print x
i <- i + 1
goto L1
L2: return i
end
$ ranges
@ 0
unit main
# a division that both uses must come to
main: begin
receive a(val)
receive b(val)
x <- a / b
print x
y <- a / b
return y
end
$ divisions
@ 0
main: begin
receive a(val)
receive b(val)
h1 <- a / b
x <- h1
print x
y <- h1
return y
end
$ | run 10 7 2
@ 0
3
result 3
evals 1
$ divisions
@ 0
main: begin
receive a(val)
receive b(val)
h1 <- a / b
x <- h1
print x
y <- h1
return y
end
$ | run 10 7 0
@ 3
trapped zero divisor
evals 1
# a division after a print stays
main: begin
receive a(val)
receive b(val)
L1: print i
x <- a / b
i <- i + x
if i < 9 goto L1
return i
end
$ divisions
@ same
# a self tail call becomes a loop
main: begin
receive n(val)
receive s(val)
if n = 0 goto L1
s <- s + n
n <- n - 1
x <- main,(n,int;s,int)
return x
L1: return s
end
$ tails
@ 0
main: begin
receive n(val)
receive s(val)
L1: if n = 0 goto L2
s <- s + n
n <- n - 1
h1 <- n
h2 <- s
n <- h1
s <- h2
x <- 0
goto L1
L2: return s
end
$ | run 1000000 20000 0
@ 0
result 200010000
evals 40000
$ run 1000000 20000 0
@ 5
deep: more than 10000 frames
# a call whose result is dropped is no tail call
main: begin
receive n(val)
if n = 1 goto L1
m <- n - 1
call main,(m,int)
L1: return 0
end
$ tails
@ same
# a leaf is joined into its caller
main: begin
receive n(val)
y <- square,(n,int)
print y
return y
end
square: begin
receive x(val)
y <- x * x
return y
end
$ join
@ 0
main: begin
receive n(val)
h1 <- n
h2 <- 0
h2 <- h1 * h1
y <- h2
print y
return y
end
square: begin
receive x(val)
y <- x * x
return y
end
$ | run 100 5
@ 0
25
result 25
evals 1
";

/// A text of a thousand diamonds, each of which evaluates the same expression.
pub fn diamonds(alloc: Global) -> Result<Vec<u8>, AllocError> {
    let start = "main: begin\nreceive a(val)\nreceive b(val)\n";
    with_diamonds(alloc, start, 1, "a + b")
}

/// The text that `move` makes of it: the first diamond alone evaluates the expression.
pub fn moved_diamonds(alloc: Global) -> Result<Vec<u8>, AllocError> {
    let start = "main: begin\nreceive a(val)\nreceive b(val)\n\
        if a goto L1\nprint a\nL1: h1 <- a + b\nx <- h1\nprint x\n";
    with_diamonds(alloc, start, 2, "h1")
}

/// A text that begins so, and has the diamonds from this one to the thousandth, which assign the right side.
fn with_diamonds(
    alloc: Global,
    start: &str,
    first: usize,
    side: &str,
) -> Result<Vec<u8>, AllocError> {
    let mut text = String::from_str(alloc, start)?;
    push_diamonds(&mut text, first, side)?;
    Ok(text.into_bytes())
}

/// Appends these diamonds and the end.
fn push_diamonds(text: &mut String, first: usize, side: &str) -> Result<(), AllocError> {
    for k in first..1001 {
        write!(
            text,
            "if a goto L{k}\nprint a\nL{k}: x <- {side}\nprint x\n"
        )?;
    }
    text.push_str("return x\nend\n")
}
