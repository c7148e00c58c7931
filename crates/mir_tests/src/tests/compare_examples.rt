// Examples of the pass that puts comparisons into tests.

/// Examples of comparisons in tests, in the form of `EXAMPLES`.
pub(crate) const COMPARE_EXAMPLES: &str = "\
# a test and a trap of variables that hold comparisons
main: begin
receive n(val)
receive m(val)
c <- n < m
d <- !n
if c goto L
if d trap 3
print m
L: return n
end
$ lower comparisons
0: start to 1
1: c <- n < m to 2
2: d <- ! n to 3
3: if n < m to 6 else 4
4: if ! n trap 3 to 5
5: print m to 6
6: return n
# the ways to ask for 0, and the relation that denies each
main: begin
receive n(val)
receive m(val)
a <- n = m
b <- n != 7
c <- 7 < n
d <- n <= m
e <- n > m
f <- n >= m
g <- !m
if !a goto L
if b = 0 goto L
if 0 = c goto L
if d != 0 goto L
if 0 != e goto L
if f = 0 goto L
if !g goto L
return m
L: return n
end
$ lower comparisons
0: start to 1
1: a <- n = m to 2
2: b <- n != 7 to 3
3: c <- 7 < n to 4
4: d <- n <= m to 5
5: e <- n > m to 6
6: f <- n >= m to 7
7: g <- ! m to 8
8: if n != m to 16 else 9
9: if n = 7 to 16 else 10
10: if 7 >= n to 16 else 11
11: if n <= m to 16 else 12
12: if n > m to 16 else 13
13: if n < m to 16 else 14
14: if m to 16 else 15
15: return m
16: return n
# an operand that is assigned since, a variable that reads itself, a comparison on one path alone, and another number
main: begin
receive n(val)
receive m(val)
a <- n < m
n <- n + 1
m <- m < 4
if a goto L
if m goto L
if n = 0 goto M
c <- n < 5
M: if c goto L
c <- n < 6
if c = 1 goto L
return m
L: return n
end
$ lower comparisons
0: start to 1
1: a <- n < m to 2
2: n <- n + 1 to 3
3: m <- m < 4 to 4
4: if a to 12 else 5
5: if m to 12 else 6
6: if n = 0 to 8 else 7
7: c <- n < 5 to 8
8: if c to 12 else 9
9: c <- n < 6 to 10
10: if c = 1 to 12 else 11
11: return m
12: return n
";
