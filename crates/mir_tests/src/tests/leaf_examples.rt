// Examples of programs as wholes: leaves that are joined into their callers.

/// In the form of the examples of `program_examples.rt`.
pub(crate) const LEAF_EXAMPLES: &str = "\
# a leaf that reads a variable before it sets it, and one whose answer is dropped, called in a loop
main: begin
receive n(val)
L1: if n = 0 goto L2
n <- n - 1
call show,(n,int)
x <- count,()
print x
goto L1
L2: return n
end
show: begin
receive v(val)
print v
return 0
end
count: begin
c <- c + 1
return c
end
$ join
main: begin
receive n(val)
L1: if n = 0 goto L2
n <- n - 1
h1 <- n
print h1
h2 <- 0
h2 <- h2 + 1
x <- h2
print x
goto L1
L2: return n
end
show: begin
receive v(val)
print v
return 0
end
count: begin
c <- c + 1
return c
end
$ join run 100 2
Ended(0) 4 [1, 1, 0, 1]
# one leaf called twice has one copy of each variable
main: begin
receive n(val)
a <- twice,(n,int)
b <- twice,(a,int)
return b
end
twice: begin
receive x(val)
y <- x + x
return y
end
$ join
main: begin
receive n(val)
h1 <- n
h2 <- 0
h2 <- h1 + h1
a <- h2
h1 <- a
h2 <- 0
h2 <- h1 + h1
b <- h2
return b
end
twice: begin
receive x(val)
y <- x + x
return y
end
# two leaves with variables of one name have copies of their own
main: begin
receive n(val)
a <- up,(n,int)
b <- down,(n,int)
c <- a * b
return c
end
up: begin
receive x(val)
x <- x + 1
return x
end
down: begin
receive x(val)
x <- x - 1
return x
end
$ join
main: begin
receive n(val)
h1 <- n
h1 <- h1 + 1
a <- h1
h2 <- n
h2 <- h2 - 1
b <- h2
c <- a * b
return c
end
up: begin
receive x(val)
x <- x + 1
return x
end
down: begin
receive x(val)
x <- x - 1
return x
end
# a leaf with a loop and two Returns
main: begin
receive n(val)
x <- half,(n,int)
return x
end
half: begin
receive d(val)
if d < 0 goto L3
L1: if d < 2 goto L2
d <- d - 2
k <- k + 1
goto L1
L2: return k
L3: return -1
end
$ join
main: begin
receive n(val)
h1 <- n
h2 <- 0
if h1 < 0 goto L2
L1: if h1 < 2 goto L4
h1 <- h1 - 2
h2 <- h2 + 1
goto L1
L2: x <- -1
L3: return x
L4: x <- h2
goto L3
end
half: begin
receive d(val)
if d < 0 goto L2
L1: if d < 2 goto L3
d <- d - 2
k <- k + 1
goto L1
L2: return -1
L3: return k
end
$ run 1000 9
Ended(4) 8 []
$ join run 1000 9
Ended(4) 8 []
$ join run 1000 -5
Ended(-1) 0 []
# a unit of 32 instructions is a leaf
main: begin
x <- most,()
return x
end
most: begin
print 1
print 1
print 1
print 1
print 1
print 1
print 1
print 1
print 1
print 1
print 1
print 1
print 1
print 1
print 1
print 1
print 1
print 1
print 1
print 1
print 1
print 1
print 1
print 1
print 1
print 1
print 1
print 1
print 1
print 1
print 1
return 1
end
$ join
main: begin
print 1
print 1
print 1
print 1
print 1
print 1
print 1
print 1
print 1
print 1
print 1
print 1
print 1
print 1
print 1
print 1
print 1
print 1
print 1
print 1
print 1
print 1
print 1
print 1
print 1
print 1
print 1
print 1
print 1
print 1
print 1
x <- 1
return x
end
most: begin
print 1
print 1
print 1
print 1
print 1
print 1
print 1
print 1
print 1
print 1
print 1
print 1
print 1
print 1
print 1
print 1
print 1
print 1
print 1
print 1
print 1
print 1
print 1
print 1
print 1
print 1
print 1
print 1
print 1
print 1
print 1
return 1
end
# one of 33 is none, and a unit with a call is none
main: begin
x <- more,()
y <- caller,()
return y
end
more: begin
print 1
print 1
print 1
print 1
print 1
print 1
print 1
print 1
print 1
print 1
print 1
print 1
print 1
print 1
print 1
print 1
print 1
print 1
print 1
print 1
print 1
print 1
print 1
print 1
print 1
print 1
print 1
print 1
print 1
print 1
print 1
print 1
return 1
end
caller: begin
x <- last,()
return x
end
last: begin
return 2
end
$ join
main: begin
x <- more,()
y <- caller,()
return y
end
more: begin
print 1
print 1
print 1
print 1
print 1
print 1
print 1
print 1
print 1
print 1
print 1
print 1
print 1
print 1
print 1
print 1
print 1
print 1
print 1
print 1
print 1
print 1
print 1
print 1
print 1
print 1
print 1
print 1
print 1
print 1
print 1
print 1
return 1
end
caller: begin
x <- 2
return x
end
last: begin
return 2
end
# a leaf that nobody calls stays, and so does one that is the first unit
main: begin
receive n(val)
return n
end
alone: begin
x <- 1
return x
end
$ join
same
# calls become fewer, and then tail calls are found
main: begin
receive n(val)
receive s(val)
if n = 0 goto L1
t <- add,(s,int;n,int)
m <- less,(n,int)
x <- main,(m,int;t,int)
return x
L1: return s
end
add: begin
receive a(val)
receive b(val)
c <- a + b
return c
end
less: begin
receive a(val)
c <- a - 1
return c
end
$ join tails run 1000000 20000 0
Ended(200010000) 40000 []
# a leaf that assigns a global, once as the variable of its call
global g
main: begin
receive n(val)
x <- count,(n,int)
y <- count,(n,int)
g <- count,(y,int)
print x
return g
end
count: begin
receive a(val)
g <- g + a
b <- g * 2
return b
end
$ join
global g
main: begin
receive n(val)
h1 <- n
h2 <- 0
g <- g + h1
h2 <- g * 2
x <- h2
h1 <- n
h2 <- 0
g <- g + h1
h2 <- g * 2
y <- h2
h1 <- y
h2 <- 0
g <- g + h1
h2 <- g * 2
g <- h2
print x
return g
end
count: begin
receive a(val)
g <- g + a
b <- g * 2
return b
end
$ run 100 3
Ended(36) 6 [6]
$ join run 100 3
Ended(36) 6 [6]
# a leaf with a trap instruction
main: begin
receive n(val)
x <- f,(n,int)
return x
end
f: begin
receive d(val)
if d = 0 trap 4
z <- 10 / d
return z
end
$ join
main: begin
receive n(val)
h1 <- n
h2 <- 0
if h1 = 0 trap 4
h2 <- 10 / h1
x <- h2
return x
end
f: begin
receive d(val)
if d = 0 trap 4
z <- 10 / d
return z
end
$ join run 100 0
Trapped(Raised(4)) 0 []
$ join run 100 3
Ended(3) 1 []
";
