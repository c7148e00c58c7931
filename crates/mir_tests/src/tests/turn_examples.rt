// Examples of programs as wholes: chains of passes, and turns until nothing changes.

/// In the form of the examples of `program_examples.rt`.
pub(crate) const TURN_EXAMPLES: &str = "\
# a self tail call becomes a loop, and its unit a leaf of the same turn
main: begin
receive n(val)
x <- sum,(n,int;0,int)
return x
end
sum: begin
receive n(val)
receive s(val)
if n = 0 goto L1
s <- s + n
n <- n - 1
x <- sum,(n,int;s,int)
return x
L1: return s
end
$ run 1000 5
Ended(15) 10 []
$ thorough
main: begin
receive n(val)
h1 <- n
h2 <- 0
L1: if h1 = 0 goto L2
h2 <- h1 + h2
h1 <- h1 - 1
goto L1
L2: return h2
end
$ thorough run 1000 5
Ended(15) 10 []
# a constant comes to a leaf when it is joined
main: begin
receive n(val)
x <- pick,(n,int;1,int)
return x
end
pick: begin
receive a(val)
receive k(val)
if k goto L1
b <- a * 2
return b
L1: b <- a + 1
return b
end
$ run 1000 5
Ended(6) 1 []
$ thorough
main: begin
receive n(val)
h3 <- n + 1
return h3
end
$ thorough run 1000 5
Ended(6) 1 []
# a chain of three calls takes three turns
main: begin
receive n(val)
x <- first,(n,int)
return x
end
first: begin
receive n(val)
x <- second,(n,int;2,int)
return x
end
second: begin
receive n(val)
receive k(val)
x <- third,(n,int;k,int)
return x
end
third: begin
receive n(val)
receive k(val)
if k = 2 goto L1
return n
L1: m <- n + k
return m
end
$ tails join optimise demanded bounds called
main: begin
receive n(val)
x <- first,(n,int)
return x
end
first: begin
receive n(val)
x <- second,(n,int;2,int)
return x
end
second: begin
receive n(val)
receive k(val)
if k = 2 goto L2
x <- n
L1: return x
L2: h3 <- n + 2
x <- h3
goto L1
end
$ thorough
main: begin
receive n(val)
h2 <- n + 2
return h2
end
$ thorough run 1000 5
Ended(7) 1 []
# one unit alone
main: begin
receive n(val)
L1: if n = 0 goto L2
k <- 3 * 4
s <- s + k
n <- n - 1
goto L1
L2: return s
end
$ tails join optimise demanded bounds called
main: begin
receive n(val)
L1: if n = 0 goto L2
n <- n - 1
s <- s + 12
goto L1
L2: return s
end
$ thorough
main: begin
receive n(val)
L1: if n = 0 goto L2
n <- n - 1
s <- s + 12
goto L1
L2: return s
end
# units that call each other are no leaves
main: begin
receive n(val)
x <- even,(n,int)
return x
end
even: begin
receive n(val)
if n = 0 goto L1
n <- n - 1
x <- odd,(n,int)
return x
L1: return 1
end
odd: begin
receive n(val)
if n = 0 goto L1
n <- n - 1
x <- even,(n,int)
return x
L1: return 0
end
$ thorough
same
$ thorough run 1000 5
Ended(0) 5 []
# a unit that only calls itself goes, and those that the others call stay
main: begin
receive n(val)
x <- even,(n,int)
return x
end
dead: begin
x <- even,(3,int)
call dead,()
return x
end
even: begin
receive n(val)
if n = 0 goto L1
n <- n - 1
x <- odd,(n,int)
return x
L1: return 1
end
odd: begin
receive n(val)
if n = 0 goto L1
n <- n - 1
x <- even,(n,int)
return x
L1: return 0
end
$ called
main: begin
receive n(val)
x <- even,(n,int)
return x
end
even: begin
receive n(val)
if n = 0 goto L1
n <- n - 1
x <- odd,(n,int)
return x
L1: return 1
end
odd: begin
receive n(val)
if n = 0 goto L1
n <- n - 1
x <- even,(n,int)
return x
L1: return 0
end
$ called run 1000 5
Ended(0) 5 []
# the order matters: by a copy an operator has the same operand twice, and then an identity gives its value
main: begin
receive n(val)
a <- n
b <- a - n
return b
end
$ fold copies
main: begin
receive n(val)
a <- n
b <- n - n
return b
end
$ fold copies run 1000 5
Ended(0) 1 []
$ copies fold
main: begin
receive n(val)
a <- n
b <- 0
return 0
end
$ copies fold run 1000 5
Ended(0) 0 []
$ copies fold sink
main: begin
receive n(val)
return 0
end
# a unit that calls itself is a leaf only when its calls have become a loop
main: begin
receive n(val)
x <- sum,(n,int;0,int)
return x
end
sum: begin
receive n(val)
receive s(val)
if n = 0 goto L1
s <- s + n
n <- n - 1
x <- sum,(n,int;s,int)
return x
L1: return s
end
$ join tails copies sink called
main: begin
receive n(val)
x <- sum,(n,int;0,int)
return x
end
sum: begin
receive n(val)
receive s(val)
L1: if n = 0 goto L2
s <- s + n
n <- n - 1
goto L1
L2: return s
end
$ tails join optimise called
main: begin
receive n(val)
h1 <- n
h2 <- 0
L1: if h1 = 0 goto L2
h2 <- h2 + h1
h1 <- h1 - 1
goto L1
L2: return h2
end
# each pass on graphs makes of a program what it makes of its units
main: begin
receive n(val)
x <- n * 2
y <- n * 2
z <- 6 / n
if n = 1 goto L1
print y
L1: w <- 6 / n
return w
end
$ clean
same
$ fold
same
$ number copies
main: begin
receive n(val)
x <- n * 2
y <- x
z <- 6 / n
if n = 1 goto L1
print x
L1: w <- 6 / n
return w
end
$ motion
main: begin
receive n(val)
h1 <- n * 2
x <- h1
y <- h1
z <- 6 / n
if n = 1 goto L1
print y
L1: w <- 6 / n
return w
end
$ divisions
main: begin
receive n(val)
x <- n * 2
y <- n * 2
h1 <- 6 / n
z <- h1
if n = 1 goto L1
print y
L1: w <- h1
return w
end
$ sink
main: begin
receive n(val)
z <- 6 / n
if n = 1 goto L1
y <- n * 2
print y
L1: w <- 6 / n
return w
end
$ wanted
main: begin
receive n(val)
y <- n * 2
z <- 6 / n
if n = 1 goto L1
print y
L1: w <- 6 / n
return w
end
# an argument that each call gives, and the recursion passes on, is known, and then nothing is wanted of it
main: begin
receive n(val)
x <- power,(n,int;2,int)
return x
end
power: begin
receive n(val)
receive base(val)
if n = 0 goto L1
n <- n - 1
x <- power,(n,int;base,int)
x <- x * base
return x
L1: return 1
end
$ thorough
main: begin
receive n(val)
x <- power,(n,int;0,int)
return x
end
power: begin
receive n(val)
receive base(val)
if n = 0 goto L1
n <- n - 1
x <- power,(n,int;0,int)
x <- x * 2
return x
L1: return 1
end
$ run 1000 3
Ended(8) 6 []
$ thorough run 1000 3
Ended(8) 6 []
# a quotient that nothing reads behind a test of its divisor, a char that is extended once more, and a sum of a sum
main: begin
receive n(val)
receive d(val)
a <- n and 127
L1: if d = 0 goto L2
q <- n / d
t <- a shl 56
c <- t shra 56
s <- c + 7
u <- s - 5
print u
d <- d - 1
goto L1
L2: return a
end
$ thorough
main: begin
receive n(val)
receive d(val)
a <- n and 127
L1: if d = 0 goto L2
u <- a + 2
print u
d <- d - 1
goto L1
L2: return a
end
$ run 1000 300 2
Ended(44) 13 [46, 46]
$ thorough run 1000 300 2
Ended(44) 5 [46, 46]
";
