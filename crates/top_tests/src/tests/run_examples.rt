// Worked examples of runs, byte for byte, in the form of the other examples.

pub const RUN_EXAMPLES: &str = "\
# exactly as many steps as the run has, and one step too few
main: begin
print 1
print 2
end
$ run 3
@ 0
1
2
result 0
evals 0
$ run 2
@ 4
1
2
running
evals 0
# the type's ends
main: begin
m <- -9223372036854775808
n <- -1
a <- m / n
print a
b <- m mod n
print b
c <- 1 shl 64
print c
d <- 1 shl -1
print d
e <- m shr 63
print e
f <- m shra 63
print f
g <- - m
print g
end
$ run 100
@ 0
-9223372036854775808
0
1
-9223372036854775808
1
-1
-9223372036854775808
result 0
evals 7
# the operators
main: begin
a <- -7 / 2
print a
a <- -7 mod 2
print a
a <- 3 min -4
print a
a <- 3 max -4
print a
a <- 6 and 3
print a
a <- 6 or 3
print a
a <- 6 xor 3
print a
a <- 1 = 1
print a
a <- 1 != 1
print a
a <- 1 < 2
print a
a <- 1 <= 0
print a
a <- 1 > 2
print a
a <- 1 >= 1
print a
a <- ! a
print a
end
$ run 100
@ 0
-3
-1
-4
3
2
7
5
1
0
1
0
0
1
0
result 0
evals 14
# ten thousand frames, one frame more that is not yet entered, and one frame more
main: begin
receive n(val)
if n = 1 goto L1
m <- n - 1
call main,(m,int)
L1: return 0
end
$ run 1000000 10000
@ 0
result 0
evals 9999
$ run 39999 10001
@ 4
running
evals 10000
$ run 40000 10001
@ 5
deep: more than 10000 frames
# each frame has variables of its own
main: begin
receive n(val)
if n < 1 goto L1
m <- n - 1
x <- main,(m,int)
n <- n * 10
print n
return x
L1: return 7
end
$ run 100 3
@ 0
10
20
30
result 7
evals 6
# a result that is dropped, and a print in the unit that is called
main: begin
x <- 1
call f,(x,int;5,int)
print x
end
f: begin
receive a(val)
receive b(val)
print b
x <- a + b
return x
end
$ run 100
@ 0
5
1
result 0
evals 1
# the least number
main: begin
x <- -9223372036854775808
print x
end
$ run 9
@ 0
-9223372036854775808
result 0
evals 0
# a minus after a name, before a number, and before a blank
main: begin
x <- a -5
print x
x <- -5
print x
x <- - 5
print x
end
$ run 9
@ 0
-5
-5
-5
result 0
evals 2
# both arrows, and a call with and without its word
main: begin
x <- call f,()
y ← f,()
z ← x + y
print z
end
f: begin
return 4
end
$ run 99
@ 0
8
result 0
evals 1
# val and int are names
main: begin
receive val(val)
int <- val + val
print int
x <- f,(int,int)
return x
end
f: begin
receive int(val)
return int
end
$ run 99 3
@ 0
6
result 6
evals 1
# a label before end, two labels at one place, a label on its own line
main: begin
goto A
print 1
A: B:
if 1 goto C
print 2
C:

end
$ run 99
@ 0
result 0
evals 0
# carriage returns and tabs
main:\tbegin\r
\tprint\t3\r
end\r
$ run 9
@ 0
3
result 0
evals 0
# no line end at the end
main: begin
print 3
end$ run 9
@ 0
3
result 0
evals 0
# a comment at the end, and empty lines


main: begin

print 3

end || last$ run 9
@ 0
3
result 0
evals 0
";
