// Examples of the passes that change what is computed.

/// Examples of constants and identities, of numbering, of copies, and of sinking with the removal of dead assignments,
/// in the form of `EXAMPLES`.
pub(crate) const VALUE_EXAMPLES: &str = "\
# each identity that gives its variable
main: begin
receive a(val)
x <- a + 0
x <- 0 + a
x <- a - 0
x <- a * 1
x <- 1 * a
x <- a / 1
x <- a or 0
x <- 0 or a
x <- a xor 0
x <- 0 xor a
x <- a and -1
x <- -1 and a
x <- a min a
x <- a max a
x <- a and a
x <- a or a
x <- a shl 64
x <- a shr -64
x <- a shra 0
return x
end
$ lower fold clean
0: start to 1
1: x <- a to 2
2: x <- a to 3
3: x <- a to 4
4: x <- a to 5
5: x <- a to 6
6: x <- a to 7
7: x <- a to 8
8: x <- a to 9
9: x <- a to 10
10: x <- a to 11
11: x <- a to 12
12: x <- a to 13
13: x <- a to 14
14: x <- a to 15
15: x <- a to 16
16: x <- a to 17
17: x <- a to 18
18: x <- a to 19
19: x <- a to 20
20: return x
# each identity that gives a number
main: begin
receive a(val)
x <- a - a
x <- a xor a
x <- a * 0
x <- 0 * a
x <- a and 0
x <- 0 and a
x <- a mod 1
x <- a mod -1
x <- 0 shl a
x <- 0 shr a
x <- 0 shra a
x <- a = a
x <- a <= a
x <- a >= a
x <- a != a
x <- a < a
x <- a > a
x <- a or -1
x <- -1 or a
return a
end
$ lower fold clean
0: start to 1
1: x <- 0 to 2
2: x <- 0 to 3
3: x <- 0 to 4
4: x <- 0 to 5
5: x <- 0 to 6
6: x <- 0 to 7
7: x <- 0 to 8
8: x <- 0 to 9
9: x <- 0 to 10
10: x <- 0 to 11
11: x <- 0 to 12
12: x <- 1 to 13
13: x <- 1 to 14
14: x <- 1 to 15
15: x <- 0 to 16
16: x <- 0 to 17
17: x <- 0 to 18
18: x <- -1 to 19
19: x <- -1 to 20
20: return a
# right sides that stay, whatever is alike in them
main: begin
receive a(val)
x <- a / a
x <- a mod a
x <- a / 0
x <- a mod 0
x <- 0 / a
x <- 0 mod a
x <- 0 - a
x <- a shl 63
x <- a min 0
return a
end
$ lower fold: changes
11 stay
# a test of a variable and itself is decided, and one of what was received is not
main: begin
receive a(val)
if a = a goto L
print 1
L: if a > a goto M
print 2
M: if a goto N
print 3
N: return a
end
$ lower fold clean
0: start to 1
1: print 2 to 2
2: if a to 4 else 3
3: print 3 to 4
4: return a
# in a loop a constant stays one that no way around changes
main: begin
receive n(val)
c <- 2
L: i <- i + c
x <- 3 - c
if i < n goto L
return x
end
$ lower fold clean
0: start to 1
1: c <- 2 to 2
2: i <- i + 2 to 3
3: x <- 1 to 4
4: if i < n to 2 else 5
5: return 1
# the first of two variables that have a term is read; a variable that had it and has it no more is not
main: begin
receive a(val)
x <- a + 1
y <- a + 1
z <- a + 1
x <- 5
w <- a + 1
end
$ lower number: changes
2: y <- x to 3
3: z <- x to 4
5: w <- y to 6
4 stay
# terms go on in both arms of a test, and begin anew where these meet
main: begin
receive a(val)
x <- a + 1
if a goto other
y <- a + 1
goto join
other: y <- a + 1
join: z <- a + 1
return z
end
$ lower number: changes
3: y <- x to 4
5: y <- x to 6
6 stay
# a division and a call give values of their own, and operands are not exchanged
main: begin
receive a(val)
receive b(val)
x <- a / b
y <- a / b
z <- x + y
w <- y + x
v <- x + y
x <- main,(a,int;b,int)
u <- x + y
return u
end
$ lower number: changes
5: v <- z to 6
8 stay
# a call without a result keeps all terms, and a division by a number is an operator as others are
main: begin
receive a(val)
x <- a / 2
call main,(a,int)
y <- a / 2
y <- a / 2
end
$ lower number: changes
3: y <- x to 4
4: y <- x to 5
4 stay
# round a loop terms begin anew
main: begin
receive a(val)
x <- a + 1
L1: y <- a + 1
z <- a + 1
if z goto L1
return y
end
$ lower number: changes
3: z <- y to 4
5 stay
# a test with two equal successors makes a root
main: begin
receive a(val)
x <- a + 1
if a goto next
next: y <- a + 1
return y
end
$ lower number: changes
5 stay
# a copy holds through a loop in which neither variable is assigned
main: begin
receive a(val)
b <- a
L1: i <- i + b
if i < b goto L1
return b
end
$ lower copies: changes
2: i <- i + a to 3
3: if i < a to 2 else 4
4: return a
2 stay
# not where its variable is assigned in the loop
main: begin
receive a(val)
b <- a
L1: i <- i + b
b <- i
if i < b goto L1
return b
end
$ lower copies: changes
4: if i < i to 2 else 5
5: return i
4 stay
# a copy that one path alone has
main: begin
receive a(val)
receive c(val)
if c goto L1
b <- a
L1: print b
return b
end
$ lower copies: changes
5 stay
# a copy that both paths have, by two nodes
main: begin
receive a(val)
receive c(val)
if c goto L1
b <- a
goto L2
L1: print c
b <- a
L2: print b
return b
end
$ lower copies: changes
6: print a to 7
7: return a
6 stay
# two copies in a circle: all is decided on the graph as it was, and then b <- b is a Skip
main: begin
receive a(val)
b <- a
a <- b
b <- a
print a
return b
end
$ lower copies: changes
2: skip to 3
3: skip to 4
5: return a
3 stay
# a chain of copies is followed one step
main: begin
receive a(val)
b <- a
c <- b
print c
return c
end
$ lower copies: changes
2: c <- a to 3
3: print b to 4
4: return b
2 stay
# a copy ends where what it copies is assigned, and where its variable is
main: begin
receive a(val)
b <- a
print b
a <- 1
print b
c <- a
c <- a + c
print c
return b
end
$ lower copies: changes
2: print a to 3
6: c <- a + a to 7
7 stay
# the result of a call ends a copy, and arguments are read anew
main: begin
receive a(val)
b <- a
a <- main,(b,int)
print b
c <- b / b
return c
end
$ lower copies: changes
2: a <- call 0 a to 3
5 stay
# the operands of a division and of a test are read anew, and a variable that is assigned to itself is a Skip
main: begin
receive a(val)
receive d(val)
b <- a
e <- d
q <- b / e
if b < e goto L1
q <- q
return q
L1: return b
end
$ lower copies: changes
3: q <- a / d to 4
4: if a < d to 7 else 5
5: skip to 6
7: return a
4 stay
# what sinks to a node that assigns its variable is dead there
main: begin
receive n(val)
x <- 1
x <- n + 1
print x
return 0
end
$ lower split round
0: start to 1
1: skip to 5
2: skip to 6
3: print x to 4
4: return 0
5: skip to 2
6: x <- n + 1 to 3
# what is put before one node stands in order of the variables, which their first places in the text number
main: begin
receive a(val)
print x
y <- a + 1
x <- a + 2
if y < x goto L1
return x
L1: return y
end
$ lower split round
0: start to 1
1: print x to 2
2: skip to 3
3: skip to 7
4: if y < x to 6 else 5
5: return x
6: return y
7: x <- a + 2 to 8
8: y <- a + 1 to 4
# what one way into a join has is put at the end of that way
main: begin
receive a(val)
if a goto L1
x <- a + 1
L1: return x
end
$ lower split round
0: start to 1
1: if a to 4 else 2
2: skip to 6
3: return x
4: skip to 3
5: skip to 3
6: x <- a + 1 to 5
# a call that assigns an operand is not passed, and one that assigns another variable is
main: begin
receive a(val)
x <- a + 1
y <- main,(a,int)
a <- main,(a,int)
print x
return a
end
$ lower split round
0: start to 1
1: skip to 2
2: y <- call 0 a to 6
3: a <- call 0 a to 4
4: print x to 5
5: return a
6: x <- a + 1 to 3
# a dead division stays
main: begin
receive n(val)
d <- 1 / n
return n
end
$ lower split round
0: start to 1
1: d <- 1 / n to 2
2: return n
# what is read round a loop is live
main: begin
receive n(val)
L1: i <- i + 1
if i < n goto L1
return i
end
$ lower split round
0: start to 4
1: skip to 6
2: if i < n to 5 else 3
3: return i
4: skip to 1
5: skip to 1
6: i <- i + 1 to 2
# a char is extended by its sign, and then a bit of it is wanted
main: begin
receive n(val)
t <- n + 256
s <- t shl 56
c <- s shra 56
m <- c and 255
b <- m and 3
i <- i + 1
if n = 0 goto L
print b
L: return n
end
$ lower narrow
0: start to 1
1: t <- n to 2
2: skip to 3
3: c <- t to 4
4: m <- c to 5
5: b <- m and 3 to 6
6: skip to 7
7: if n = 0 to 9 else 8
8: print b to 9
9: return n
# faint: read by one another alone
main: begin
receive n(val)
L1: i <- i + j
j <- i * 3
n <- n - 1
if n > 0 goto L1
d <- i / n
return n
end
$ lower narrow
0: start to 1
1: skip to 2
2: skip to 3
3: n <- n - 1 to 4
4: if n > 0 to 1 else 5
5: d <- i / n to 6
6: return n
# a short is kept where more bits are wanted than stay
main: begin
receive n(val)
s <- n shl 48
c <- s shra 48
print c
t <- n shl 48
u <- t shr 48
v <- u or 65536
w <- v shl 60
print w
return 0
end
$ lower narrow
0: start to 1
1: s <- n shl 48 to 2
2: c <- s shra 48 to 3
3: print c to 4
4: skip to 5
5: u <- n to 6
6: v <- u to 7
7: w <- v shl 60 to 8
8: print w to 9
9: return 0
# a mask on the left, and one that leaves what it is assigned to
main: begin
receive n(val)
m <- 255 and n
n <- n and 255
s <- 256 + m
b <- s and 3
print b
c <- n and 1
print c
return 0
end
$ lower narrow
0: start to 1
1: m <- n to 2
2: skip to 3
3: s <- m to 4
4: b <- s and 3 to 5
5: print b to 6
6: c <- n and 1 to 7
7: print c to 8
8: return 0
";
