// Examples of the pass that removes divisions that nothing reads.

/// Examples of divisions that nothing reads, and whose divisors cannot be 0 or may be, in the form of `EXAMPLES`.
pub(crate) const UNREAD_EXAMPLES: &str = "\
# divisors: a constant, one that may be 0, one that a test has shown, one that is printed, and the constant 0
main: begin
receive n(val)
receive m(val)
a <- n / 7
b <- n mod m
if m = 0 goto L
c <- n / m
d <- n mod m
print d
e <- n / 0
L: return n
end
$ lower unread: changes
1: skip to 2
4: skip to 5
7 stay
# what is known of divisors: an or, a sign, a not, what meets, and on which side of a test they are
main: begin
receive n(val)
receive m(val)
k <- m or 1
a <- n / k
l <- -k
b <- n mod l
z <- 0
o <- !z
c <- n / o
if n goto M
o <- n
M: d <- n / o
if m < 0 goto N
e <- n / m
return n
N: e <- n / m
return n
end
$ lower unread: changes
2: skip to 3
4: skip to 5
7: skip to 8
14: skip to 15
12 stay
# bounds show it too
main: begin
receive n(val)
p <- n and 7
q <- p + 1
r <- n / q
s <- n / p
return n
end
$ lower unread: changes
3: skip to 4
5 stay
# a global is read by the return, and not where it is assigned before; a chain goes from its end
global g
main: begin
receive n(val)
g <- n / 3
g <- n / 5
a <- n / 3
b <- a / 5
return n
end
$ lower unread: changes
1: skip to 2
4: skip to 5
4 stay
$ lower unread unread: changes
1: skip to 2
3: skip to 4
4: skip to 5
3 stay
";
