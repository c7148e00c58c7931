// Examples of the pass that uses bounds.

/// Examples of bounds, in the form of `EXAMPLES`.
pub(crate) const BOUND_EXAMPLES: &str = "\
# what tests leave decides a remainder, a mask, the lesser and a comparison
main: begin
receive n(val)
if n < 0 goto L
if n > 100 goto L
m <- n mod 128
k <- 127 and n
s <- 200 min n
c <- n < 1000
t <- n mod 127
print c
L: return n
end
$ lower bounds
0: start to 1
1: if n < 0 to 9 else 2
2: if n > 100 to 9 else 3
3: m <- n to 4
4: k <- n to 5
5: s <- n to 6
6: c <- 1 to 7
7: t <- n mod 127 to 8
8: print 1 to 9
9: return n
# a counter that a test keeps below 50 is not negative
main: begin
receive n(val)
i <- 0
L: if i < 0 goto M
i <- i + 1
if i < 50 goto L
return i
M: return n
end
$ lower bounds
0: start to 1
1: i <- 0 to 2
2: skip to 3
3: i <- i + 1 to 4
4: if i < 50 to 2 else 5
5: return i
# a divisor that cannot be 0, one that may be and one that is
main: begin
receive n(val)
d <- n and 7
e <- d + 1
q <- n / e
if e = 0 goto L
z <- 0
r <- q / d
s <- d mod z
return r
L: return n
end
$ lower bounds
0: start to 1
1: d <- n and 7 to 2
2: e <- d + 1 to 3
3: q <- n / e to 4
4: skip to 5
5: z <- 0 to 6
6: r <- q / d to 7
7: s <- d mod 0 to 8
8: return r
# a truth value that is compared with 0, and one that both ways leave
main: begin
receive n(val)
c <- n < 5
b <- c != 0
if b goto L
x <- 3
goto M
L: x <- 4
M: y <- x max 2
z <- 9 min y
print z
return b
end
$ lower bounds clean
0: start to 1
1: c <- n < 5 to 2
2: b <- c to 3
3: if b to 5 else 4
4: x <- 3 to 6
5: x <- 4 to 6
6: y <- x max 2 to 7
7: z <- 9 min y to 8
8: print z to 9
9: return b
";
