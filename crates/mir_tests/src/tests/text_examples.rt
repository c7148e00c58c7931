// Examples of texts that are read.

/// An example is `---` with a remark, a text, and after `$` the canonical text of its program, `same` where that is the
/// text itself; or the word `changes`, the lines of the canonical text that the text does not have, and how many it
/// has; or why it has none. Most refusals stand in the examples of `mir_top`.
pub(crate) const TEXTS: &str = "\
--- the smallest program
main: begin
end$ main: begin
end
--- blanks, comments, the other arrow, leading zeros, a `return` alone and a unit of another name
|| a comment
\tf:
begin\r
 x ← 007 || here

 y <- -0
return
end

end_: begin
end$ f: begin
x <- 7
y <- 0
return 0
end
end_: begin
end
--- what a minus belongs to: `a - 5`, the constant -5, and a negation
main: begin
x <- a -5
y <- -5
z <- - 5
w <- - -5
v <- a--5
u <- ! a
end
$ main: begin
x <- a - 5
y <- -5
z <- - 5
w <- - -5
v <- a - -5
u <- ! a
end
--- the ends of the numbers, and every operator
main: begin
m <- -9223372036854775808
n <- 9223372036854775807
a <- m+n
a <- m-n
a <- m*n
a <- m/n
a <- m mod n
a <- m min n
a <- m max n
a <- m=n
a <- m!=n
a <- m<n
a <- m<=n
a <- m>n
a <- m>=n
a <- m shl n
a <- m shr n
a <- m shra n
a <- m and n
a <- m or n
a <- m xor n
end
$ changes
a <- m + n
a <- m - n
a <- m * n
a <- m / n
a <- m = n
a <- m != n
a <- m < n
a <- m <= n
a <- m > n
a <- m >= n
13 stay
--- every test, with one target
main: begin
if a = b goto L1
if a != b goto L1
if a < -5 goto L1
if a <= b goto L1
if a > b goto L1
if a >= b goto L1
if a goto L1
if ! a goto L1
L1: end
$ same
--- labels that change their order, that stand at one place, and that no jump names
main: begin
receive a(val)
L3: goto L2
L9:
L1: if a goto L4
L2: L4: if a goto L1
L7: end
$ main: begin
receive a(val)
goto L2
L1: if a goto L2
L2: if a goto L1
end
--- names of units, variables and labels are spaces of their own, and the words `val` and `int` are names
a: begin
receive int(val)
b: val <- b,(int,int)
call a,(val,int)
goto b
end
b: begin
receive a(val)
a <- call b,(a,int)
end
$ changes
L1: val <- b,(int,int)
goto L1
a <- b,(a,int)
7 stay
--- names that are met in another order than their numbers say
main: begin
receive b(val)
receive a(val)
x <- a + b
end
$ same
--- ten labels, so that one has two digits
main: begin
L1: goto L2
L2: goto L3
L3: goto L4
L4: goto L5
L5: goto L6
L6: goto L7
L7: goto L8
L8: goto L9
L9: goto L10
L10: goto L1
end
$ same
--- a unit that is called before it is written, without arguments and with six
main: begin
call g,()
x <- f,(x,int;1,int;-2,int;y,int;x,int;z,int)
end
g: begin
end
f: begin
receive a(val)
receive b(val)
receive c(val)
receive d(val)
receive e(val)
receive f(val)
end
$ same
--- line ends after a unit's name and after a label, labels that no jump names, and any byte in a comment
main:


begin || ÿ x
\r\t
 L1:

 L2: beginx<-5||\r
L3: end


$ main: begin
beginx <- 5
end
--- variables in the order of their numbers, and labels on lines of their own
main: begin
receive n(val)
x <- f,(n,int;n,int)
top:
if x goto out
print y
goto top
out:
end
f: begin
receive a(val)
receive b(val)
c <- b + a
return
end
$ main: begin
receive n(val)
x <- f,(n,int;n,int)
L1: if x goto L2
print y
goto L1
L2: end
f: begin
receive a(val)
receive b(val)
c <- b + a
return 0
end
--- of two bad tokens the first
1_ #$ line 1: bad number
--- an arrow that is cut
x

→$ line 3: bad byte
--- a byte before a bad number
# 12a$ line 1: bad byte
--- a comment, and a name that begins with no letter

|| #
_$ line 3: bad byte
--- two operands
main: begin
x <- 1 2
end
$ line 2: unexpected
--- a call over two lines
main: begin
x <- f,(a,int
)
end
$ line 2: unexpected
--- an argument that is no `int`
main: begin
x <- f,(1,val)
end
$ line 2: unexpected
--- a receive that is no `val`
main: begin
receive b(int)
end
$ line 2: unexpected
--- a body on the line of its begin
main: begin end
$ line 1: unexpected
--- a name alone
main$ line 1: unexpected
--- a reserved word as a name
goto: begin
end
$ line 1: unexpected
--- an end of no unit
main: begin
end
end
$ line 3: unexpected
--- an assignment over two lines
main: begin
x
<- 1
end
$ line 2: unexpected
--- a jump to a label with its colon
main: begin
goto L:
end
$ line 2: unexpected
--- a unit that has only its name
main:
$ text ends inside a unit
--- a body that has only a label
main: begin
L:
$ text ends inside a unit
--- a test that names no label
a: begin
if x goto m
end
$ line 2: no such label
";
