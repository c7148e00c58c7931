// Examples of programs as wholes: calls that go back to the beginning.

/// An example is a line with a remark, a program, and what becomes of it, once or more: after `$` the passes in turn
/// (`tails`, `join`), and then the canonical text of the program that they make, or `same` where that is the text of
/// the example. Where the line ends with `run`, a number of steps and inputs, the run of that program follows: how it
/// stands, how many evaluations it counted, and what it printed; or why there is no report.
pub(crate) const PROGRAM_EXAMPLES: &str = "\
# a sum by recursion runs in one frame when it is a loop
main: begin
receive n(val)
receive s(val)
if n = 0 goto L1
s <- s + n
n <- n - 1
x <- main,(n,int;s,int)
return x
L1: return s
end
$ run 1000000 20000 0
deep: more than 10000 frames
$ tails run 1000000 20000 0
Ended(200010000) 40000 []
# a call that exchanges its arguments
main: begin
receive a(val)
receive b(val)
receive n(val)
if n = 0 goto L1
n <- n - 1
x <- main,(b,int;a,int;n,int)
return x
L1: return a
end
$ tails
main: begin
receive a(val)
receive b(val)
receive n(val)
L1: if n = 0 goto L2
n <- n - 1
h1 <- b
h2 <- a
h3 <- n
a <- h1
b <- h2
n <- h3
x <- 0
goto L1
L2: return a
end
$ run 100 5 7 3
Ended(7) 3 []
$ tails run 100 5 7 3
Ended(7) 3 []
# two self tail calls have the same temporaries
main: begin
receive n(val)
if n = 0 goto L2
if n > 9 goto L1
m <- n - 1
x <- main,(m,int)
return x
L1: k <- n - 7
y <- main,(k,int)
return y
L2: return n
end
$ tails
main: begin
receive n(val)
L1: if n = 0 goto L2
if n > 9 goto L3
m <- n - 1
h1 <- m
n <- h1
m <- 0
x <- 0
k <- 0
y <- 0
goto L1
L2: return n
L3: k <- n - 7
h1 <- k
n <- h1
m <- 0
x <- 0
k <- 0
y <- 0
goto L1
end
$ run 1000 25
Ended(0) 7 []
$ tails run 1000 25
Ended(0) 7 []
# one whose Return is reached through jumps
main: begin
receive n(val)
if n = 0 goto L3
n <- n - 1
x <- main,(n,int)
goto L1
L2: return x
L1: goto L2
L3: return n
end
$ tails
main: begin
receive n(val)
L1: if n = 0 goto L2
n <- n - 1
h1 <- n
n <- h1
x <- 0
goto L1
L2: return n
end
# one whose answer is returned in another variable stays
main: begin
receive n(val)
if n = 0 goto L1
n <- n - 1
x <- main,(n,int)
y <- x
return y
L1: return n
end
$ tails
same
# one that returns another variable than the answer's stays
main: begin
receive n(val)
if n = 0 goto L1
n <- n - 1
x <- main,(n,int)
return n
L1: return n
end
$ tails
same
# calls of each other stay, though each returns what it is answered
main: begin
receive n(val)
if n = 0 goto L1
n <- n - 1
x <- other,(n,int)
return x
L1: return 1
end
other: begin
receive n(val)
if n = 0 goto L1
n <- n - 1
x <- main,(n,int)
return x
L1: return 0
end
$ tails
same
# an endless recursion with no argument becomes an endless loop
main: begin
h1 <- main,()
return h1
end
$ tails
main: begin
L1: h1 <- 0
goto L1
end
$ run 100000
deep: more than 10000 frames
$ tails run 100000
Running 0 []
# a loop in each frame: variables are 0 again
main: begin
receive n(val)
c <- c + n
print c
if n = 0 goto L1
n <- n - 1
x <- main,(n,int)
return x
L1: return c
end
$ run 100 3
Ended(0) 7 [3, 2, 1, 0]
$ tails run 100 3
Ended(0) 7 [3, 2, 1, 0]
# a call whose answer goes to a global stays
global g
main: begin
receive n(val)
if n = 0 goto L1
n <- n - 1
g <- main,(n,int)
return g
L1: return n
end
$ tails
same
# globals go through a loop as they are
global g
main: begin
receive n(val)
g <- g + n
if n = 0 goto L1
n <- n - 1
x <- main,(n,int)
return x
L1: return g
end
$ tails
global g
main: begin
receive n(val)
L1: g <- g + n
if n = 0 goto L2
n <- n - 1
h1 <- n
n <- h1
x <- 0
goto L1
L2: return g
end
$ run 1000 4
Ended(10) 9 []
$ tails run 1000 4
Ended(10) 9 []
# of the arguments of a unit one is the same constant in each call
main: begin
receive n(val)
x <- scaled,(n,int;3,int;1,int)
y <- scaled,(x,int;3,int;2,int)
return y
end
scaled: begin
receive v(val)
receive by(val)
receive k(val)
v <- v * by
v <- v + k
return v
end
$ arguments
main: begin
receive n(val)
x <- scaled,(n,int;3,int;1,int)
y <- scaled,(x,int;3,int;2,int)
return y
end
scaled: begin
receive v(val)
receive by(val)
receive k(val)
by <- 3
v <- v * by
v <- v + k
return v
end
$ run 100 5
Ended(50) 4 []
$ arguments run 100 5
Ended(50) 4 []
# the first unit is entered from outside; one call is not reached; one unit is not called
main: begin
receive n(val)
if n goto L1
x <- far,(6,int)
return x
y <- far,(4,int)
L1: z <- main,(0,int)
return z
end
far: begin
receive k(val)
return k
end
alone: begin
receive k(val)
return k
end
$ arguments
main: begin
receive n(val)
if n goto L1
x <- far,(6,int)
return x
L1: z <- main,(0,int)
return z
end
far: begin
receive k(val)
k <- 6
return k
end
alone: begin
receive k(val)
return k
end
$ run 100 1
Ended(6) 0 []
$ arguments run 100 1
Ended(6) 0 []
# a recursion passes an argument on, and one that it also assigns
main: begin
receive n(val)
x <- power,(n,int;2,int;1,int)
return x
end
power: begin
receive n(val)
receive base(val)
receive step(val)
if n = 0 goto L1
n <- n - 1
x <- power,(n,int;base,int;step,int)
step <- 3
x <- x * base
return x
L1: return 1
end
$ arguments
main: begin
receive n(val)
x <- power,(n,int;2,int;1,int)
return x
end
power: begin
receive n(val)
receive base(val)
receive step(val)
base <- 2
if n = 0 goto L1
n <- n - 1
x <- power,(n,int;base,int;step,int)
step <- 3
x <- x * base
return x
L1: return 1
end
$ run 100 3
Ended(8) 6 []
$ arguments run 100 3
Ended(8) 6 []
# a called unit wants four bits of one argument and none of the other, which its caller then does not compute
main: begin
receive a(val)
b <- a * 3
c <- a + 256
x <- low,(c,int;b,int)
y <- x and 15
return y
end
low: begin
receive p(val)
receive q(val)
r <- p + 1
return r
end
$ demanded
main: begin
receive a(val)
c <- a
x <- low,(c,int;0,int)
y <- x and 15
return y
end
low: begin
receive p(val)
receive q(val)
r <- p + 1
return r
end
$ wanted
same
$ run 100 5
Ended(6) 4 []
$ demanded run 100 5
Ended(6) 2 []
# no caller wants the result, and no unit the global
global g
main: begin
receive n(val)
g <- n * 5
call count,(n,int)
return n
end
count: begin
receive m(val)
g <- g + m
r <- m * m
return r
end
$ demanded
global g
main: begin
receive n(val)
call count,(0,int)
return n
end
count: begin
receive m(val)
return 0
end
$ run 100 4
Ended(4) 3 []
$ demanded run 100 4
Ended(4) 0 []
# a recursion wants of its argument what it hands on: the sign is looked at, so all bits are
main: begin
receive n(val)
x <- down,(n,int;1,int)
y <- x and 1
return y
end
down: begin
receive k(val)
receive s(val)
if k < 1 goto L1
k <- k - 1
s <- s + 2
t <- down,(k,int;s,int)
return t
L1: return s
end
$ demanded
main: begin
receive n(val)
x <- down,(n,int;1,int)
y <- x and 1
return y
end
down: begin
receive k(val)
receive s(val)
if k < 1 goto L1
k <- k - 1
t <- down,(k,int;s,int)
return t
L1: return s
end
$ run 1000 3
Ended(1) 7 []
$ demanded run 1000 3
Ended(1) 4 []
# each call hands the globals on by one place, so that it takes several to know that all but one are wanted
global g0
global g1
global g2
global g3
global g4
global g5
global g6
global g7
global g8
global g9
global h
main: begin
receive n(val)
g9 <- n * 3
call on,(n,int)
print g0
return n
end
on: begin
receive k(val)
if k < 1 goto L1
g0 <- g1
g1 <- g2
g2 <- g3
g3 <- g4
g4 <- g5
g5 <- g6
g6 <- g7
g7 <- g8
g8 <- g9
h <- h + k
k <- k - 1
call on,(k,int)
L1: return 0
end
$ demanded
global g0
global g1
global g2
global g3
global g4
global g5
global g6
global g7
global g8
global g9
global h
main: begin
receive n(val)
g9 <- n * 3
call on,(n,int)
print g0
return n
end
on: begin
receive k(val)
if k < 1 goto L1
g0 <- g1
g1 <- g2
g2 <- g3
g3 <- g4
g4 <- g5
g5 <- g6
g6 <- g7
g7 <- g8
g8 <- g9
k <- k - 1
call on,(k,int)
L1: return 0
end
# what is known of an argument and of a global decides tests in the called unit, and what it hands back one of the caller
global limit
main: begin
receive n(val)
limit <- 50
x <- wide,(3,int)
y <- wide,(7,int)
if x > 127 goto L1
z <- x + y
print z
L1: return n
end
wide: begin
receive k(val)
if limit < 0 goto L1
r <- k * 16
if k < 1 goto L1
r <- r and 127
return r
L1: print k
return 0
end
$ known
global limit
main: begin
receive n(val)
limit <- 50
x <- wide,(3,int)
y <- wide,(7,int)
z <- x + y
print z
return n
end
wide: begin
receive k(val)
r <- k * 16
r <- r and 127
return r
end
$ bounds
same
$ run 100 4
Ended(4) 5 [160]
$ known run 100 4
Ended(4) 5 [160]
# a recursion that always hands back 1: its calls give 1
main: begin
receive n(val)
x <- one,(5,int)
return x
end
one: begin
receive k(val)
if k > 0 goto L1
return 1
L1: j <- k - 1
t <- one,(j,int)
if t < 1 goto L2
return t
L2: print k
return 1
end
$ known
main: begin
receive n(val)
x <- one,(5,int)
return 1
end
one: begin
receive k(val)
if k > 0 goto L1
return 1
L1: j <- k - 1
t <- one,(j,int)
return 1
end
$ run 1000 4
Ended(1) 5 []
$ known run 1000 4
Ended(1) 5 []
";
