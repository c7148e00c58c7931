// Worked examples of turns of all passes and of chains of passes, byte for byte. `worked.rt` says how an example is
// written.

pub const CHAIN_EXAMPLES: &str = "\
# a unit is a leaf once the one that it calls stands in it, so that a second turn joins it too
main: begin
receive n(val)
x <- f,(n,int)
return x
end
f: begin
receive a(val)
y <- g,(a,int)
y <- y + 1
return y
end
g: begin
receive b(val)
z <- b * b
return z
end
$ thorough
@ 0
main: begin
receive n(val)
h2 <- n * n
h3 <- h2 + 1
return h3
end
$ | thorough
@ same
$ run 100 6
@ 0
result 37
evals 2
# a recursion becomes a loop, then a leaf, and then a part of its caller; a unit that no call leads to goes at once
global g
main: begin
receive n(val)
s <- sum,(n,int;0,int)
print s
return g
end
sum: begin
receive n(val)
receive s(val)
if n = 0 goto L1
s <- add,(s,int;n,int)
n <- n - 1
x <- sum,(n,int;s,int)
return x
L1: return s
end
add: begin
receive a(val)
receive b(val)
g <- g + 1
c <- a + b
return c
end
lost: begin
x <- lost,()
return x
end
$ thorough
@ 0
global g
main: begin
receive n(val)
h1 <- n
h2 <- 0
L1: if h1 = 0 goto L2
h3 <- h1 + h2
g <- g + 1
h1 <- h1 - 1
h2 <- h3
goto L1
L2: print h2
return g
end
$ | run 100 4
@ 0
10
result 4
evals 12
$ run 100 4
@ 0
10
result 4
evals 12
$ passes tails join optimise called
@ 0
global g
main: begin
receive n(val)
s <- sum,(n,int;0,int)
print s
return g
end
sum: begin
receive n(val)
receive s(val)
L1: if n = 0 goto L2
h5 <- s + n
g <- g + 1
n <- n - 1
s <- h5
goto L1
L2: return s
end
$ | passes join optimise called
@ 0
global g
main: begin
receive n(val)
h1 <- n
h2 <- 0
L1: if h1 = 0 goto L2
h3 <- h2 + h1
g <- g + 1
h1 <- h1 - 1
h2 <- h3
goto L1
L2: print h2
return g
end
# no pass: the canonical text, with a loop that nothing leaves, and code that nothing reaches
main: begin
x <- 007 || seven
L: goto L
print x
end
$ passes
@ 0
main: begin
x <- 7
L1: goto L1
print x
end
$ passes clean
@ 0
main: begin
x <- 7
L1: goto L1
end
# the order matters: a unit is dropped where no call leads to it any more
main: begin
receive n(val)
x <- f,(n,int)
return x
end
f: begin
receive a(val)
y <- a + 1
return y
end
$ passes join called
@ 0
main: begin
receive n(val)
h1 <- n
h2 <- 0
h2 <- h1 + 1
x <- h2
return x
end
$ | passes copies sink
@ 0
main: begin
receive n(val)
h2 <- n + 1
return h2
end
$ passes called join
@ 0
main: begin
receive n(val)
h1 <- n
h2 <- 0
h2 <- h1 + 1
x <- h2
return x
end
f: begin
receive a(val)
y <- a + 1
return y
end
# as many passes as there may be, each by its word
main: begin
end
$ passes tails join arguments optimise clean fold number copies motion divisions sink comparisons terms bounds \
extensions unread wanted demanded called tails join arguments optimise clean fold number copies motion divisions sink \
comparisons terms bounds extensions unread wanted demanded called tails join arguments optimise clean fold number \
copies motion divisions sink comparisons terms bounds extensions unread wanted demanded called tails join arguments \
optimise clean fold number
@ 0
main: begin
return 0
end
# one pass each: a constant, a value that another variable has, a copy, a sum on one side, and one that is dead
main: begin
receive a(val)
receive b(val)
c <- 4
x <- a * c
y <- a * c
z <- x
if b goto L1
d <- z + b
L1: return z
end
$ passes fold
@ 0
main: begin
receive a(val)
receive b(val)
c <- 4
x <- a * 4
y <- a * 4
z <- x
if b goto L1
d <- z + b
L1: return z
end
$ passes number
@ 0
main: begin
receive a(val)
receive b(val)
c <- 4
x <- a * c
y <- x
z <- x
if b goto L1
d <- z + b
L1: return z
end
$ passes copies
@ 0
main: begin
receive a(val)
receive b(val)
c <- 4
x <- a * c
y <- a * c
z <- x
if b goto L1
d <- x + b
L1: return x
end
$ passes motion
@ 0
main: begin
receive a(val)
receive b(val)
c <- 4
h1 <- a * c
x <- h1
y <- h1
z <- x
if b goto L1
d <- z + b
L1: return z
end
$ passes sink
@ 0
main: begin
receive a(val)
receive b(val)
c <- 4
x <- a * c
z <- x
return z
end
";
