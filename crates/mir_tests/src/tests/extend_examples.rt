// Examples of the pass that makes copies of extensions.

/// Examples of extensions of values that fit, and of those that may not, in the form of `EXAMPLES`.
pub(crate) const EXTEND_EXAMPLES: &str = "\
# masks: a char with its sign and without, a byte that has no sign, and a number that may be anything
main: begin
receive n(val)
a <- n and 127
t <- a shl 56
x <- t shra 56
y <- t shr 56
b <- n and 255
u <- b shl 56
z <- u shra 56
w <- u shr 56
v <- n shl 56
s <- v shra 56
return x
end
$ lower extensions: changes
3: x <- a to 4
4: y <- a to 5
8: w <- b to 9
9 stay
# tests: within a short, another distance, one bit less, and where the tests do not lead
main: begin
receive n(val)
if n < -32768 goto L
if n > 32767 goto L
t <- n shl 48
x <- t shra 48
y <- t shr 48
w <- t shra 47
u <- n shl 49
v <- u shra 49
return x
L: t <- n shl 48
x <- t shra 48
return x
end
$ lower extensions: changes
4: x <- n to 5
12 stay
# a source that is assigned since, one that reads itself, one path alone, and no shift at all
main: begin
receive n(val)
a <- n and 1
t <- a shl 8
a <- 1
x <- t shra 8
a <- a shl 8
y <- a shra 8
b <- n and 1
if n goto M
u <- b shl 8
M: z <- u shra 8
v <- b shl 0
w <- v shra 0
return x
end
$ lower extensions: changes
14 stay
";
