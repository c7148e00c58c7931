// Examples of the pass that makes one operator of two.

/// Examples of operators with constants on one another, in the form of `EXAMPLES`.
pub(crate) const TERM_EXAMPLES: &str = "\
# sums, differences and signs, with constants on either side
main: begin
receive n(val)
a <- n + 7
b <- 5 - n
c <- -n
d <- a - 7
e <- 10 - a
f <- a + 1
g <- b + 3
h <- 3 - b
i <- 2 + c
k <- -b
l <- a = 9
m <- 6 != b
return d
end
$ lower terms
0: start to 1
1: a <- n + 7 to 2
2: b <- 5 - n to 3
3: c <- - n to 4
4: d <- n to 5
5: e <- 3 - n to 6
6: f <- n + 8 to 7
7: g <- 8 - n to 8
8: h <- n + -2 to 9
9: i <- 2 - n to 10
10: k <- n + -5 to 11
11: l <- n = 2 to 12
12: m <- n != -1 to 13
13: return d
# the same operator twice, the other way round, and shifts that go too far together
main: begin
receive n(val)
a <- n * 6
b <- a * 7
c <- 12 and n
d <- c and 10
e <- n or 12
f <- 3 or e
g <- n xor 5
h <- g xor 5
i <- g != 1
j <- n shl 40
k <- j shl 20
l <- j shl 24
m <- n shra 40
o <- m shra 30
p <- n shr 3
q <- p shr 68
r <- n min 9
s <- 4 min r
t <- n max 9
u <- t max 12
return b
end
$ lower terms: changes
2: b <- n * 42 to 3
3: c <- n and 12 to 4
4: d <- n and 8 to 5
6: f <- n or 15 to 7
8: h <- n to 9
9: i <- n != 4 to 10
11: k <- n shl 60 to 12
14: o <- n shra 63 to 15
16: q <- n shr 7 to 17
18: s <- n min 4 to 19
20: u <- n max 12 to 21
11 stay
# comparisons of comparisons with 0
main: begin
receive n(val)
receive m(val)
a <- n < m
b <- a = 0
c <- a != 0
d <- !a
e <- !n
f <- !e
g <- 0 = e
h <- e != 0
i <- n = 3
j <- 0 = i
k <- i = 1
return b
end
$ lower terms: changes
2: b <- n >= m to 3
3: c <- n < m to 4
4: d <- n >= m to 5
6: f <- n != 0 to 7
7: g <- n != 0 to 8
8: h <- ! n to 9
10: j <- n != 3 to 11
11: k <- n = 3 to 12
5 stay
# comparisons of comparisons with other constants
main: begin
receive n(val)
receive m(val)
a <- m < n
b <- a = 1
c <- a != 1
d <- a = 2
e <- a != -1
f <- 1 != a
g <- m = n
h <- g = 0
i <- a < 1
return b
end
$ lower terms: changes
2: b <- m < n to 3
3: c <- m >= n to 4
4: d <- 0 to 5
5: e <- 1 to 6
6: f <- m >= n to 7
7: g <- n = m to 8
8: h <- n != m to 9
4 stay
# operands in one order: a variable left of a constant, and the lesser number left; where the order matters they stay
main: begin
receive n(val)
receive m(val)
a <- n + m
b <- m + n
c <- m * n
d <- 3 * n
e <- m min n
f <- m max n
g <- m = n
h <- 4 != n
i <- m and n
j <- m or n
k <- m xor n
l <- m - n
o <- m < n
p <- 5 shl n
q <- 6 / n
r <- m mod n
s <- 2 < n
return b
end
$ lower terms: changes
2: b <- n + m to 3
3: c <- n * m to 4
4: d <- n * 3 to 5
5: e <- n min m to 6
6: f <- n max m to 7
7: g <- n = m to 8
8: h <- n != 4 to 9
9: i <- n and m to 10
10: j <- n or m to 11
11: k <- n xor m to 12
9 stay
# a sum in either order is one expression behind the pass
main: begin
receive n(val)
receive m(val)
a <- n + m
b <- m + n
return b
end
$ lower number: changes
4 stay
$ lower terms number: changes
2: b <- a to 3
3 stay
# an operand that is assigned since, one that reads itself, one path alone, and operators that do not go together
main: begin
receive n(val)
receive m(val)
a <- n + 1
n <- n + 2
b <- a + 3
m <- m + 1
c <- m + 1
if n goto M
d <- n * 2
M: e <- d * 2
f <- n * 3
g <- f + 3
h <- f / 3
i <- n + m
k <- i + 1
return b
end
$ lower terms: changes
15 stay
# three in turn: each pass makes one of two
main: begin
receive n(val)
a <- n + 1
b <- a + 2
c <- b + 3
return c
end
$ lower terms: changes
2: b <- n + 3 to 3
3: c <- a + 5 to 4
3 stay
$ lower terms terms: changes
2: b <- n + 3 to 3
3: c <- n + 6 to 4
3 stay
";
