//! Runs of the whole program, on sheets and scripts that were worked by hand.

use crate::run::run;
use byte_streams::{PlainFolder, PlainSink, PlainSource};
use cell_words::CellWord;
use claim_core::Outcome;
use recalculation::{Kind, NoPace, Pace};
use std::alloc::{AllocError, Global};
use std::process::Abort;
use std::sync::atomic::{AtomicU64, Ordering};
use std::test::Fail;
use std::thread::{Threads, yield_now};

/// A room for all that these tests write.
pub(crate) const ROOM: usize = 65_536;

/// The words for how many workers each row of a table is run with, between bars: no words for as many as are usual.
const EACH: &str = "|--workers 1|--workers 2|--workers 64";

/// The same for rows with many cells.
const FEW: &str = "|--workers 1";

/// Sheets, and what `show` makes of them. A row has its command, its input, the status and what is written. A double
/// quote stands as `~` here, LF as `|`, CR as a backquote, and a byte that is no UTF-8 as `%`.
const SHEETS: &str = "
    show =>0
    show 1,=A1+1=>0 1,2|
    show 1,=A1+1|=>0 1,2|
    show -3|=>0 -3|
    show =A1|=>0 #CYCLE(1)!|
    show =B1,=C1,=B1|=>0 #TOCYCLE!,#CYCLE(2)!,#CYCLE(2)!|
    show ~=IF(B1=0,7,A1)~,0|=>0 7,0|
    show =1/0+B1,=B1|=>0 #DIV/0!,#CYCLE(1)!|
    show =B1+1/0,=B1|=>0 #TOCYCLE!,#CYCLE(1)!|
    show ~=IFERROR(B1,5)~,=B1|=>0 #TOCYCLE!,#CYCLE(1)!|
    show =C1,=A1,=D1,=E1,=B1=>0 #CYCLE(5)!,#CYCLE(5)!,#CYCLE(5)!,#CYCLE(5)!,#CYCLE(5)!|
    show ~=INDEX(B1:C1,1,2)~,=A1,3|=>0 3,3,3|
    show 9223372036854775807,=A1+1|=>0 9223372036854775807,9223372036854775808|
    show 170141183460469231731687303715884105727,=A1+1|=>0 170141183460469231731687303715884105727,#NUM!|
    show -170141183460469231731687303715884105728,=A1-1,=-A1,=A1/-1=>0 -170141183460469231731687303715884105728,#NUM!,#NUM!,#NUM!|
    show 170141183460469231731687303715884105728,=A1=>0 170141183460469231731687303715884105728,170141183460469231731687303715884105728|
    show =170141183460469231731687303715884105727=>0 170141183460469231731687303715884105727|
    show x,=SUM(A1:A2),=COUNT(A1:A2)|5|=>0 x,5,1|5,,|
    show ~=VLOOKUP(2,A2:B3,2)~,|1,=A1|2,9|=>0 9,|1,9|2,9|
    show '7,-0,1.5,=COUNT(A1:C1)|=>0 7,0,1.5,1|
    show =-7/2,~=MOD(-7,2)~,~=MOD(7,-2)~|=>0 -3,1,-1|
    show =B1+1,text=>0 #VALUE!,text|
    show =Sheet1!B1,4=>0 4,4|
    show =((((((((((((((((((((((((((((((((1))))))))))))))))))))))))))))))))|=>0 1|
    show 1,|,2|=>0 1,|,2|
    show 1,2|||3|=>0 1,2|3,|
    show ~~|x|=>0 ~~|x|
    show a,~b,c~|=>0 a,~b,c~|
    show ~a,b~,~say ~~so~~~|=>0 ~a,b~,~say ~~so~~~|
    show \u{FEFF}a,TRUE`|'=x,-5`|=>0 a,TRUE|=x,-5|
";

/// Sheets with computed texts.
const COMPUTED: &str = "
    show ab,=A1&1=>0 ab,ab1|
    show ~=LEFT(~~h\u{E9}llo~~,2)&LEN(~~h\u{E9}llo~~)~=>0 h\u{E9}5|
    show xxxxxxxxxxxxxxxxxxxxxxxxxxxxxxxxxxxxxxxxxxxxxxxx,~=A1&~~y~~~=>0 xxxxxxxxxxxxxxxxxxxxxxxxxxxxxxxxxxxxxxxxxxxxxxxx,#VALUE!|
    show xxxxxxxxxxxxxxxxxxxxxxxxxxxxxxxxxxxxxxxxxxxxxxx,~=A1&~~y~~~=>0 xxxxxxxxxxxxxxxxxxxxxxxxxxxxxxxxxxxxxxxxxxxxxxx,xxxxxxxxxxxxxxxxxxxxxxxxxxxxxxxxxxxxxxxxxxxxxxxy|
    show ~=MID(~~abc~~,4,2)=A2~=>0 TRUE|
    show =1+2&3,~=MID(~~abc~~,2,2)~,~=RIGHT(~~abc~~,2)~,=LEN(12)=>0 33,bc,bc,2|
    show =1&TRUE,~=1&~~,~~~,~=LEFT(~~abc~~,-1)~,~=MID(~~ab~~,TRUE,1/0)~=>0 1TRUE,~1,~,#VALUE!,#DIV/0!|
    show =1&2,~=SUM(A1:A1)~,~=COUNT(A1:A1)~,=SUM(A1&0),=A1+1=>0 12,0,0,#VALUE!,#VALUE!|
    show ~=VLOOKUP(~~k~~&1,A2:B3,2)~,|k0,5|k1,6=>0 6,|k0,5|k1,6|
    show ~=B1&~~a~~~,~=LEFT(A1)~,=LEN(A1)=>0 #CYCLE(2)!,#CYCLE(2)!,#TOCYCLE!|
    edit s.csv{ab,=A1&1|cd|}copy B1 B2|show B2|set A2 7|show B2|=>0 s!B2,cd1|s!B2,71|
";

/// Sheets that are refused.
const REFUSED_SHEETS: &str = "
    show =SUM(A1|=>3 refused Sheet1!A1 at 7: F2|
    show =(((((((((((((((((((((((((((((((((1)))))))))))))))))))))))))))))))))|=>3 refused Sheet1!A1 at 33: F6|
    show =sheet1!b1,4=>3 refused Sheet1!A1 at 1: F9|
    show =1.5|=>3 refused Sheet1!A1 at 2: F1|
    show ~=~~a~|=>3 refused Sheet1!A1 at 1: F1|
    show =FOO(1)|=>3 refused Sheet1!A1 at 1: F3|
    show =SUM()|=>3 refused Sheet1!A1 at 5: F5|
    show ~=NOT(1,2)~|=>3 refused Sheet1!A1 at 6: F5|
    show =A1:A2|=>3 refused Sheet1!A1 at 3: F2|
    show =1&&2|=>3 refused Sheet1!A1 at 3: F2|
    show =LEFT()|=>3 refused Sheet1!A1 at 6: F5|
    show =A65537|=>3 refused Sheet1!A1 at 1: F10|
    show =|=>3 refused Sheet1!A1 at 1: F2|
    show 1|=B7,=A1+=>3 refused Sheet1!B2 at 4: F2|
    show =1+,=2+=>3 refused Sheet1!A1 at 3: F2|
    show =170141183460469231731687303715884105728|=>3 refused Sheet1!A1 at 1: F4|
    show 1,%=>3 refused Sheet1 row 1 column 2: S1|
";

/// Sheets of a household, of a roster, of an order and of a trip, and a column with an empty line, which is no row.
const EXAMPLES: &str = "
    show item,planned,spent,left,note|rent,80000,80000,=B2-C2,~=IF(D2<0,~~over~~,~~ok~~)~|food,40000,43250,=B3-C3,~=IF(D3<0,~~over~~,~~ok~~)~|bus,6000,4900,=B4-C4,~=IF(D4<0,~~over~~,~~ok~~)~|savings,15000,15000,=B5-C5,~=IF(D5<0,~~over~~,~~ok~~)~|sum,=SUM(B2:B5),=SUM(C2:C5),=SUM(D2:D5),~=IF(D6<0,~~over~~,~~ok~~)~|largest,=MAX(B2:B5),=MAX(C2:C5),,|percent for rent,=B2*100/B$6,=C2*100/C$6,,|=>0 item,planned,spent,left,note|rent,80000,80000,0,ok|food,40000,43250,-3250,over|bus,6000,4900,1100,ok|savings,15000,15000,0,ok|sum,141000,143150,-2150,over|largest,80000,80000,,|percent for rent,56,55,,|
    show day,Ann,Bob,Cyd,,shift,hours|Mon,early,late,night,,early,8|Tue,late,,early,,late,7|Wed,night,early,,,night,9|hours,~=IFERROR(VLOOKUP(B2,$F$2:$G$4,2,FALSE),0)+IFERROR(VLOOKUP(B3,$F$2:$G$4,2,FALSE),0)+IFERROR(VLOOKUP(B4,$F$2:$G$4,2,FALSE),0)~,~=IFERROR(VLOOKUP(C2,$F$2:$G$4,2,FALSE),0)+IFERROR(VLOOKUP(C3,$F$2:$G$4,2,FALSE),0)+IFERROR(VLOOKUP(C4,$F$2:$G$4,2,FALSE),0)~,~=IFERROR(VLOOKUP(D2,$F$2:$G$4,2,FALSE),0)+IFERROR(VLOOKUP(D3,$F$2:$G$4,2,FALSE),0)+IFERROR(VLOOKUP(D4,$F$2:$G$4,2,FALSE),0)~,,,|too much,=B5>20,=C5>20,=D5>20,,,|=>0 day,Ann,Bob,Cyd,,shift,hours|Mon,early,late,night,,early,8|Tue,late,,early,,late,7|Wed,night,early,,,night,9|hours,24,15,17,,,|too much,TRUE,FALSE,FALSE,,,|
    show code,cents,,item,code,count,price|A,250,,pens,A,10,~=VLOOKUP(E2,$A$2:$B$4,2)*F2~|B,1200,,book,B,2,~=VLOOKUP(E3,$A$2:$B$4,2)*F3~|C,90,,lamp,X,1,~=IFERROR(VLOOKUP(E4,$A$2:$B$4,2)*F4,~~no price~~)~|,,,sum,,,=SUM(G2:G4)|,,,discount,,,~=IF(G5>4000,G5/10,0)~|,,,net,,,=G5-G6|,,,shipping,,,~=IF(G9>5000,0,490)~|,,,total,,,=G7+G8|,,,per piece,,,=G9/SUM(F2:F4)|=>0 code,cents,,item,code,count,price|A,250,,pens,A,10,2500|B,1200,,book,B,2,2400|C,90,,lamp,X,1,no price|,,,sum,,,4900|,,,discount,,,490|,,,net,,,4410|,,,shipping,,,#CYCLE(2)!|,,,total,,,#CYCLE(2)!|,,,per piece,,,#TOCYCLE!|
    show who,paid,share,owes,does,in words|Ann,12000,=B$5/COUNT(B$2:B$4),=C2-B2,~=IF(D2<0,~~gets~~,~~pays~~)~,~=A2&~~ ~~&E2&~~ ~~&ABS(D2)~|Bob,4500,=B$5/COUNT(B$2:B$4),=C3-B3,~=IF(D3<0,~~gets~~,~~pays~~)~,~=A3&~~ ~~&E3&~~ ~~&ABS(D3)~|Cyd,0,=B$5/COUNT(B$2:B$4),=C4-B4,~=IF(D4<0,~~gets~~,~~pays~~)~,~=A4&~~ ~~&E4&~~ ~~&ABS(D4)~|sum,=SUM(B2:B4)|=>0 who,paid,share,owes,does,in words|Ann,12000,5500,-6500,gets,Ann gets 6500|Bob,4500,5500,1000,pays,Bob pays 1000|Cyd,0,5500,5500,pays,Cyd pays 5500|sum,16500,,,,|
    show 10||30|=A1+A3|=>0 10|30|#CYCLE(1)!|
";

/// Files and scripts, and what `edit` makes of them. A row has the name of each file with its bytes in braces behind the
/// command. A file that has `^` there is named and does not exist.
const SCRIPTS: &str = "
    edit loop.csv{=B1,=C1,=B1|}recalc|set B1 4|recalc|print|=>0 recalculated 3|recalculated 2|4,4,4|
    edit s.csv{7,=$A$1+A1|8|}copy B1 B2|print|set B2 =A1|copy B2 C1|show C1|=>0 7,14|8,15|s!C1,#REF!|
    edit k.csv{=A1,=1|}recalc|set B1 =A1|recalc|print|=>0 recalculated 2|recalculated 1|#CYCLE(1)!,#TOCYCLE!|
    edit loop.csv{=B1,=C1,=B1|}cycles|=>0 cycles 1|loop!B1,loop!C1|
    edit loop.csv{=B1,=C1,=B1|}set B1 4|recalc|show A1|=>0 recalculated 2|loop!A1,4|
    edit loop.csv{=B1,=C1,=B1|}set B2 TRUE|show B2|=>0 loop!B2,TRUE|
    edit l.csv{=B1,=A1|}cycles|=>0 cycles 1|l!A1,l!B1|
    edit l.csv{=B1,=A1,=C1,2|}cycles|set B1 1|cycles|set C1|cycles|=>0 cycles 2|l!A1,l!B1|l!C1|cycles 1|l!C1|cycles 0|
    edit b/my plan.csv{1|}show A1|=>0 'my plan'!A1,1|
    edit e.csv{}set A1 5|copy A1 A1:A2|print|=>0 5|5|
    edit e.csv{}set B2 3|copy B2 B2:A1|print|clear A1|print|=>0 3,3|3,3|,3|3,3|
    edit e.csv{}set A1  x|set B1 a b |set C1 1|set C1|print|=>0  x,a b |
    edit e.csv{}print|cycles|recalc|show A1|=>0 cycles 0|recalculated 0|e!A1,|
    edit e.csv{}=>0
    edit s.csv{7,=$A$1+A1|8|}recalc|show IV65536|=>0 recalculated 1|s!IV65536,|
    edit s.csv{1,=A1+1|}# nothing is recalculated before it is asked for||set A1 4|clear B1|set B1 =A1*2|recalc|recalc|=>0 recalculated 1|recalculated 0|
    edit s.csv{1,=A1+1|}print|recalc|set A1 2|show B1|recalc=>0 1,2|recalculated 0|s!B1,3|recalculated 0|
    edit s.csv{1,=A1+1`|}recalc`|# \u{E4}|show B1`|=>0 recalculated 1|s!B1,2|
    edit s.csv{1,=A1+1|2,=SUM(A1:A2)|}recalc|insert 2 1|recalc|print|=>0 recalculated 2|recalculated 1|1,2|,|2,3|
    edit s.csv{1,=A1+1|2,=SUM(A1:A2)|}recalc|delete 1 1|recalc|print|=>0 recalculated 2|recalculated 1|2,2|
    edit s.csv{x|=A2|}recalc|insert 1 1|recalc|show A3|=>0 recalculated 1|recalculated 0|s!A3,#CYCLE(1)!|
    edit s.csv{1|=A1|}delete 1 1|print|=>0 #REF!|
    edit s.csv{7,=$A$1+A1|8|}whatif A1 1 3 B1|show A1|=>0 1,2|2,4|3,6|s!A1,7|
    edit loop.csv{=B1,=C1,=B1|}whatif B1 4 4 A1|show A1|=>0 4,4|loop!A1,#TOCYCLE!|
    edit s.csv{7,=$A$1+A1,=B1*2,5|8|}whatif A1 -1 0 A1|whatif A1 2 2 D1|whatif A1 2 3 C1|whatif Z9 1 2 B1|recalc|print|=>0 -1,-1|0,0|2,5|2,8|3,12|1,14|2,14|recalculated 0|7,14,28,5|8,,,|
    edit trip.csv{who,paid,share,owes,does,in words|Ann,12000,=B$5/COUNT(B$2:B$4),=C2-B2,~=IF(D2<0,~~gets~~,~~pays~~)~,~=A2&~~ ~~&E2&~~ ~~&ABS(D2)~|Bob,4500,=B$5/COUNT(B$2:B$4),=C3-B3,~=IF(D3<0,~~gets~~,~~pays~~)~,~=A3&~~ ~~&E3&~~ ~~&ABS(D3)~|Cyd,0,=B$5/COUNT(B$2:B$4),=C4-B4,~=IF(D4<0,~~gets~~,~~pays~~)~,~=A4&~~ ~~&E4&~~ ~~&ABS(D4)~|sum,=SUM(B2:B4)|}# Bob paid for the boat, too, and wants his whole name there.|recalc|set B3 13500|recalc|set A3 Robert|recalc|show F3|print|=>0 recalculated 13|recalculated 13|recalculated 1|trip!F3,Robert gets 5000|who,paid,share,owes,does,in words|Ann,12000,8500,-3500,gets,Ann gets 3500|Robert,13500,8500,-5000,gets,Robert gets 5000|Cyd,0,8500,8500,pays,Cyd pays 8500|sum,25500,,,,|
    edit prices.csv{code,cents,,item,code,count,price|A,250,,pens,A,10,~=VLOOKUP(E2,$A$2:$B$4,2)*F2~|B,1200,,book,B,2,~=VLOOKUP(E3,$A$2:$B$4,2)*F3~|C,90,,lamp,X,1,~=IFERROR(VLOOKUP(E4,$A$2:$B$4,2)*F4,~~no price~~)~|,,,sum,,,=SUM(G2:G4)|,,,discount,,,~=IF(G5>4000,G5/10,0)~|,,,net,,,=G5-G6|,,,shipping,,,~=IF(G9>5000,0,490)~|,,,total,,,=G7+G8|,,,per piece,,,=G9/SUM(F2:F4)|}# Which cells ask for one another?|cycles|# Shipping is free from a net price on, not from a total on.|set G8 =IF(G7>5000,0,490)|cycles|print|=>0 cycles 1|prices!G8,prices!G9|cycles 0|code,cents,,item,code,count,price|A,250,,pens,A,10,2500|B,1200,,book,B,2,2400|C,90,,lamp,X,1,no price|,,,sum,,,4900|,,,discount,,,490|,,,net,,,4410|,,,shipping,,,490|,,,total,,,4900|,,,per piece,,,376|
";

/// Runs on several files.
const SEVERAL_FILES: &str = "
    edit a.csv{1,=b!A1+1|}b.csv{=a!A1*10|}show b!A1|print b|print|=>0 b!A1,10|10|1,11|
    edit a.csv{=b!A1|}b.csv{=a!A1|}cycles|set b!A1 5|print a|print b|=>0 cycles 1|a!A1,b!A1|5|5|
    edit a.csv{1|}b.csv{x|}copy b!A1 B1|copy A1 b!A2:B2|print|print b|=>0 1,x|x,|1,1|
    edit a.csv{1|}my plan.csv{=a!A1+1|}set 'my plan'!B1 ='my plan'!A1*2|recalc|show 'my plan'!B1|print my plan|=>0 recalculated 2|'my plan'!B1,4|2,4|
    edit a.csv{1|}b.csv{=a!A1+1|}c.csv{=b!A1+1|}d.csv{=c!A1+1|}e.csv{=d!A1+1|}f.csv{=e!A1+1|}g.csv{=f!A1+1|}h.csv{=g!A1+1|}i.csv{=h!A1+1|}j.csv{=i!A1+1|}k.csv{=j!A1+1|}l.csv{=k!A1+1|}m.csv{=l!A1+1|}n.csv{=m!A1+1|}o.csv{=n!A1+1|}p.csv{=o!A1+1|}recalc|set a!A1 2|show p!A1|print h|print b|=>0 recalculated 15|p!A1,17|9|3|
    edit gone.csv{^}recalc|=>5
    edit a.csv{1|}gone.csv{^}recalc|=>5
    edit gone.csv{^}a.csv{=1+|}recalc|=>5
    edit a.csv{=1+|}gone.csv{^}recalc|=>3 refused a!A1 at 3: F2|
    edit a.csv{1|}b/a.csv{2|}recalc|=>3 refused sheet 2: S5|
    edit gone.csv{^}b!.csv{1|}recalc|=>3 refused sheet 2: S5|
    edit a.csv{1|}b.csv{1|1,=2+,=|}recalc|=>3 refused b!B2 at 3: F2|
    edit a.csv{1|}b.csv{1|2,%|}recalc|=>3 refused b row 2 column 2: S1|
    edit a.csv{1|}my plan.csv{=C1:D1|}recalc|=>3 refused 'my plan'!A1 at 3: F2|
    edit order.csv{code,count,name,price|A,10,~=VLOOKUP(A2,goods!$A$2:$C$4,2,FALSE)~,~=VLOOKUP(A2,goods!$A$2:$C$4,3,FALSE)*B2~|B,2,~=VLOOKUP(A3,goods!$A$2:$C$4,2,FALSE)~,~=VLOOKUP(A3,goods!$A$2:$C$4,3,FALSE)*B3~|sum,,,=SUM(D2:D3)|}goods.csv{code,name,cents|A,pens,250|B,book,1200|C,lamp,9000|}# Pens get dearer.|print|set goods!C2 300|show D4|print goods|=>0 code,count,name,price|A,10,pens,2500|B,2,book,2400|sum,,,4900|order!D4,5400|code,name,cents|A,pens,300|B,book,1200|C,lamp,9000|
";

/// Scripts with a line that is refused.
const REFUSED_SCRIPTS: &str = "
    edit s.csv{7,=$A$1+A1|8|}recalc|set A1 =1+|=>4 recalculated 1|refused line 2 at 3: F2|
    edit s.csv{7,=$A$1+A1|8|}recalc|frob|=>4 recalculated 1|refused line 2: E1|
    edit s.csv{7,=$A$1+A1|8|}recalc|show ZZ1|=>4 recalculated 1|refused line 2: E2|
    edit e.csv{}set A1 =1+|=>4 refused line 1 at 3: F2|
    edit loop.csv{=B1,=C1,=B1|}shw B2|=>4 refused line 1: E1|
    edit s.csv{1|}||show A1|frob|set A1 2|show A1|=>4 s!A1,1|refused line 4: E1|
    edit s.csv{=1+1|}recalc`|# \u{E4}|show %|recalc|=>4 recalculated 1|refused line 3: E5|
    edit s.csv{1|} recalc|=>4 refused line 1: E1|
    edit s.csv{1|}set|=>4 refused line 1: E2|
    edit s.csv{1|}clear A1 B1|=>4 refused line 1: E2|
    edit s.csv{1|}copy A1 A1:IW1|=>4 refused line 1: E2|
    edit s.csv{1|}copy A1 A1:B65536|=>4 refused line 1: E2|
    edit s.csv{1|}copy A1|=>4 refused line 1: E2|
    edit s.csv{1|}print t|=>4 refused line 1: E2|
    edit s.csv{1|}recalc now|=>4 refused line 1: E2|
    edit s.csv{1|}show t!A1|=>4 refused line 1: E2|
    edit s.csv{1|}set A1 =t!A1|=>4 refused line 1 at 1: F9|
    edit s.csv{1|}set A65536 2|insert 1 1|=>4 refused line 2: E7|
    edit s.csv{1|}delete 2 65536|=>4 refused line 1: E2|
    edit s.csv{7,=$A$1+A1|8|}whatif A1 1 1001 B1|=>4 refused line 1: E2|
";

/// Sheets that are saved. A formula that is short where it is set is too long where it is copied to.
const SAVES: &str = "
    edit s.csv{7,=$A$1+A1|8|}copy B1 B2|set A3 '=x|save|=>0 7,=$A$1+A1|8,=$A$1+A2|'=x,|
    edit s.csv{1|}set A1 1,5|set B1 'TRUE|set C1 '|save|=>0 ~1,5~,'TRUE,'|
    edit s.csv{1|}set B1 =A1+A1+A1+A1+A1+A1+A1+A1+A1+A1+A1+A1+A1+A1+A1+A1+A1+A1+A1+A1+A1+A1+A1+A1+A1+A1+A1+A1+A1+A1+A1+A1+A1+A1+A1+A1+A1+A1+A1+A1+A1+A1+A1+A1+A1+A1+A1+A1+A1+A1+A1+A1+A1+A1+A1+A1+A1+A1+A1+A1+A1+A1+A1+A1+A1+A1+A1+A1+A1+A1+A1+A1+A1+A1+A1+A1+A1+A1+A1+A1+A1+A1+A1+A1+A1+A1+A1+A1+A1+A1+A1+A1+A1+A1+A1+A1+A1+A1+A1+A1+A1+A1+A1+A1+A1+A1+A1+A1+A1+A1+A1+A1+A1+A1+A1+A1+A1+A1+A1+A1+A1+A1+A1+A1+A1+A1+A1+A1+A1+A1+A1+A1+A1+A1+A1+A1+A1+A1+A1+A1+A1+A1+A1+A1+A1+A1+A1+A1+A1+A1+A1+A1+A1+A1+A1+A1+A1+A1+A1+A1+A1+A1+A1+A1+A1+A1+A1+A1+A1+A1+A1+A1+A1+A1+A1+A1+A1+A1+A1+A1+A1+A1+A1+A1+A1+A1+A1+A1+A1+A1+A1+A1+A1+A1+A1+A1+A1+A1+A1+A1+A1+A1+A1+A1+A1+A1+A1+A1+A1+A1+A1+A1+A1+A1+A1+A1+A1+A1+A1+A1+A1+A1+A1+A1+A1+A1+A1+A1+A1+A1+A1+A1+A1+A1+A1+A1+A1+A1+A1+A1+A1+A1+A1+A1+A1+A1+A1+A1+A1+A1+A1+A1+A1+A1+A1+A1|save|copy B1 B10000|save|=>4 1,=A1+A1+A1+A1+A1+A1+A1+A1+A1+A1+A1+A1+A1+A1+A1+A1+A1+A1+A1+A1+A1+A1+A1+A1+A1+A1+A1+A1+A1+A1+A1+A1+A1+A1+A1+A1+A1+A1+A1+A1+A1+A1+A1+A1+A1+A1+A1+A1+A1+A1+A1+A1+A1+A1+A1+A1+A1+A1+A1+A1+A1+A1+A1+A1+A1+A1+A1+A1+A1+A1+A1+A1+A1+A1+A1+A1+A1+A1+A1+A1+A1+A1+A1+A1+A1+A1+A1+A1+A1+A1+A1+A1+A1+A1+A1+A1+A1+A1+A1+A1+A1+A1+A1+A1+A1+A1+A1+A1+A1+A1+A1+A1+A1+A1+A1+A1+A1+A1+A1+A1+A1+A1+A1+A1+A1+A1+A1+A1+A1+A1+A1+A1+A1+A1+A1+A1+A1+A1+A1+A1+A1+A1+A1+A1+A1+A1+A1+A1+A1+A1+A1+A1+A1+A1+A1+A1+A1+A1+A1+A1+A1+A1+A1+A1+A1+A1+A1+A1+A1+A1+A1+A1+A1+A1+A1+A1+A1+A1+A1+A1+A1+A1+A1+A1+A1+A1+A1+A1+A1+A1+A1+A1+A1+A1+A1+A1+A1+A1+A1+A1+A1+A1+A1+A1+A1+A1+A1+A1+A1+A1+A1+A1+A1+A1+A1+A1+A1+A1+A1+A1+A1+A1+A1+A1+A1+A1+A1+A1+A1+A1+A1+A1+A1+A1+A1+A1+A1+A1+A1+A1+A1+A1+A1+A1+A1+A1+A1+A1+A1+A1+A1+A1+A1+A1+A1+A1|refused line 4: E8|
    edit a.csv{1|}b.csv{2|}set B1 =A1+A1+A1+A1+A1+A1+A1+A1+A1+A1+A1+A1+A1+A1+A1+A1+A1+A1+A1+A1+A1+A1+A1+A1+A1+A1+A1+A1+A1+A1+A1+A1+A1+A1+A1+A1+A1+A1+A1+A1+A1+A1+A1+A1+A1+A1+A1+A1+A1+A1+A1+A1+A1+A1+A1+A1+A1+A1+A1+A1+A1+A1+A1+A1+A1+A1+A1+A1+A1+A1+A1+A1+A1+A1+A1+A1+A1+A1+A1+A1+A1+A1+A1+A1+A1+A1+A1+A1+A1+A1+A1+A1+A1+A1+A1+A1+A1+A1+A1+A1+A1+A1+A1+A1+A1+A1+A1+A1+A1+A1+A1+A1+A1+A1+A1+A1+A1+A1+A1+A1+A1+A1+A1+A1+A1+A1+A1+A1+A1+A1+A1+A1+A1+A1+A1+A1+A1+A1+A1+A1+A1+A1+A1+A1+A1+A1+A1+A1+A1+A1+A1+A1+A1+A1+A1+A1+A1+A1+A1+A1+A1+A1+A1+A1+A1+A1+A1+A1+A1+A1+A1+A1+A1+A1+A1+A1+A1+A1+A1+A1+A1+A1+A1+A1+A1+A1+A1+A1+A1+A1+A1+A1+A1+A1+A1+A1+A1+A1+A1+A1+A1+A1+A1+A1+A1+A1+A1+A1+A1+A1+A1+A1+A1+A1+A1+A1+A1+A1+A1+A1+A1+A1+A1+A1+A1+A1+A1+A1+A1+A1+A1+A1+A1+A1+A1+A1+A1+A1+A1+A1+A1+A1+A1+A1+A1+A1+A1+A1+A1+A1+A1+A1+A1+A1+A1+A1|copy B1 B10000|save b|save a|=>4 2|refused line 4: E8|
    edit e.csv{}save|set A2 1|save|=>0 ~~|1|
    edit a.csv{1|}b.csv{=a!A1|}save b|save a|save|print b|=>0 =a!A1|1|1|1|
    edit s.csv{1,=A1+1|}recalc|set A1 4|save|recalc|save|=>0 recalculated 1|4,=A1+1|recalculated 1|4,=A1+1|
    edit s.csv{1|}save t|=>4 refused line 1: E2|
    edit budget.csv{item,planned,spent,left,note|rent,80000,80000,=B2-C2,~=IF(D2<0,~~over~~,~~ok~~)~|food,40000,43250,=B3-C3,~=IF(D3<0,~~over~~,~~ok~~)~|bus,6000,4900,=B4-C4,~=IF(D4<0,~~over~~,~~ok~~)~|savings,15000,15000,=B5-C5,~=IF(D5<0,~~over~~,~~ok~~)~|sum,=SUM(B2:B5),=SUM(C2:C5),=SUM(D2:D5),~=IF(D6<0,~~over~~,~~ok~~)~|largest,=MAX(B2:B5),=MAX(C2:C5),,|percent for rent,=B2*100/B$6,=C2*100/C$6,,|}# Food was cheaper than planned, and the note says how much is left.|set C3 39500|set E2 =IF(D2<0,~over by ~&-D2,~left: ~&D2)|copy E2 E3:E6|save|=>0 item,planned,spent,left,note|rent,80000,80000,=B2-C2,~=IF(D2<0,~~over by ~~&-D2,~~left: ~~&D2)~|food,40000,39500,=B3-C3,~=IF(D3<0,~~over by ~~&-D3,~~left: ~~&D3)~|bus,6000,4900,=B4-C4,~=IF(D4<0,~~over by ~~&-D4,~~left: ~~&D4)~|savings,15000,15000,=B5-C5,~=IF(D5<0,~~over by ~~&-D5,~~left: ~~&D5)~|sum,=SUM(B2:B5),=SUM(C2:C5),=SUM(D2:D5),~=IF(D6<0,~~over by ~~&-D6,~~left: ~~&D6)~|largest,=MAX(B2:B5),=MAX(C2:C5),,|percent for rent,=B2*100/B$6,=C2*100/C$6,,|
";

/// Sheets whose recalculation is traced. A row has its words, a colon and the sheet.
const TRACES: &str = "
    trace --workers 2 --order 0,1,0,1,0,1,0,1,0,1,0,1,0,1,0,1:=B1,=A1|=>0 0 look A1 stale|1 look B1 stale|0 claim A1 won|1 claim B1 won|0 look B1 claimed 1|1 look A1 claimed 0|0 take 0|1 take 1|0 value 0 2|1 value 1 2|0 tag 0 6|1 tag 1 6|0 publish B1 0 won|1 publish A1 1 won|0 take 2|1 take 3|0 value 2 2|0 tag 2 6|0 publish A1 2 lost 1 0 1|0 finished|1 value 3 2|1 tag 3 6|1 publish B1 3 lost 0 1 0|1 finished|result|#CYCLE(2)!,#CYCLE(2)!|
    trace --workers 2 --order 0,0,1,1,1,1,1,1,1,1,1,1,1:=B1,=A1|=>0 0 look A1 stale|0 claim A1 won|1 look B1 stale|1 claim B1 won|1 look A1 claimed 0|1 take 0|1 value 0 2|1 tag 0 6|1 publish A1 0 won|1 take 1|1 value 1 2|1 tag 1 6|1 publish B1 1 won|1 finished|0 look B1 done 1 1 1|0 load-tag 1 6|0 take 2|0 value 2 2|0 tag 2 6|0 publish A1 2 lost 1 0 0|0 finished|result|#CYCLE(2)!,#CYCLE(2)!|
    trace --workers 2:=1,=A1|=>0 0 look A1 stale|0 claim A1 won|0 take 0|0 value 0 1|0 value 0 0|0 tag 0 1|0 publish A1 0 won|0 look B1 stale|0 claim B1 won|0 take 1|0 value 1 1|0 value 1 0|0 tag 1 1|0 publish B1 1 won|0 finished|1 look B1 done 0 0 1|1 load-tag 1 1|1 load-value 1 1|1 load-value 1 0|1 look A1 done 0 0 0|1 load-tag 0 1|1 load-value 0 1|1 load-value 0 0|1 finished|result|1,1|
    trace --workers 2 --order 0,0 --stop 0:=B1,=A1|=>0 0 look A1 stale|0 claim A1 won|1 look B1 stale|1 claim B1 won|1 look A1 claimed 0|1 take 0|1 value 0 2|1 tag 0 6|1 publish A1 0 won|1 take 1|1 value 1 2|1 tag 1 6|1 publish B1 1 won|1 finished|result|#CYCLE(2)!,#CYCLE(2)!|
    trace --workers 2 --order 0,0 --stop 0,1:=B1,=A1|=>2 refused words|
    trace --workers 2 --order 0,0 --stop 2:=B1,=A1|=>2 refused words|
    trace --workers 2 --order 0,0 --stop 0,0:=B1,=A1|=>2 refused words|
    trace --workers 1:~=~~a~~&~~b~~~=>0 0 look A1 stale|0 claim A1 won|0 take 0|0 value 0 2|0 value 0 25185|0 value 0 0|0 value 0 0|0 value 0 0|0 value 0 0|0 value 0 0|0 tag 0 8|0 publish A1 0 won|0 finished|result|ab|
    trace:=>0 result|
    trace --workers 3:7,x|=>0 result|7,x|
    trace --workers 2 --order 0,0,1,1,1,1,1,1,1,1,1,1,1,1,1:=B1+1,=2|=>0 0 look A1 stale|0 claim A1 won|1 look B1 stale|1 claim B1 won|1 take 0|1 value 0 2|1 value 0 0|1 tag 0 1|1 publish B1 0 won|1 look A1 claimed 0|1 take 1|1 value 1 3|1 value 1 0|1 tag 1 1|1 publish A1 1 won|1 finished|0 look B1 done 1 1 0|0 load-tag 0 1|0 load-value 0 2|0 load-value 0 0|0 take 2|0 value 2 3|0 value 2 0|0 tag 2 1|0 publish A1 2 lost 1 0 1|0 finished|result|3,2|
    trace:=1+|=>3 refused Sheet1!A1 at 3: F2|
    trace --workers 2 --order 2:=A1|=>2 refused words|
";

/// Generated books.
const DEMOS: &str = "
    demo 16=>0 cells 16 formulas 14|recalculated 14 values 11 errors 0 cycle 1 tocycle 2 sum 119|recalculated 12 values 8 errors 0 cycle 2 tocycle 4 sum 127|
    demo 1=>0 cells 1 formulas 0|recalculated 0 values 0 errors 0 cycle 0 tocycle 0 sum 0|recalculated 0 values 0 errors 0 cycle 0 tocycle 0 sum 0|
    demo 4=>0 cells 4 formulas 3|recalculated 3 values 3 errors 0 cycle 0 tocycle 0 sum 5|recalculated 3 values 3 errors 0 cycle 0 tocycle 0 sum 10|
    demo --workers 1 2000=>0 cells 2000 formulas 1750|recalculated 1750 values 1252 errors 0 cycle 166 tocycle 332 sum 113690180|recalculated 1252 values 1249 errors 0 cycle 167 tocycle 334 sum 113691512|
";

/// Many sums of a large range.
const SUMS: &str = "
    edit s.csv{1|}set B1 =SUM(A$1:A$65536)|copy B1 B2:B400|recalc|show B400|set A65536 2|recalc|show B1|=>0 recalculated 400|s!B400,1|recalculated 400|s!B1,3|
";

/// Chains of 3,000 cells, a loop of 1,000, a sheet that has too many cells, and tables of one that is full.
const LARGE: &str = "
    edit s.csv{1|}copy A1 A1:A65536|copy A1 B1:B65536|copy A1 C1:C65536|copy A1 D1:D65536|=>4 refused line 4: E4|
    edit s.csv{1|}copy A1 A1:A65536|copy A1 B1:B65536|copy A1 C1:C65536|copy A1 D1:D3391|whatif E1 2 3 E1|set E1 =A1|whatif E1 4 4 E1|whatif F1 1 1 E1|=>4 2,2|3,3|4,4|refused line 8: E4|
    edit e.csv{}set A1 1|set A2 =A1+1|copy A2 A3:A3000|recalc|show A3000|set A1 5|recalc|show A3000|=>0 recalculated 2999|e!A3000,3000|recalculated 2999|e!A3000,3004|
    edit e.csv{}set A1 =A2+1|copy A1 A2:A2999|set A3000 1|recalc|show A1|set A3000 5|recalc|show A1|=>0 recalculated 2999|e!A1,3000|recalculated 2999|e!A1,3004|
    edit e.csv{}set A1 =A2|copy A1 A2:A999|set A1000 =A1|recalc|show A1|show A1000|set A1 4|recalc|show A1000|show A2|=>0 recalculated 1000|e!A1,#CYCLE(1000)!|e!A1000,#CYCLE(1000)!|recalculated 999|e!A1000,4|e!A2,4|
";

/// What a run came to.
#[derive(Drop)]
struct Ran {
    status: u8,
    out: PlainSink,
    kept: Option<Outcome>,
}

/// A run on these words, files and input.
fn run_on<R: Threads + Sync>(
    rt: &R,
    alloc: Global,
    words: &Vec<String>,
    files: Vec<(String, Vec<u8>)>,
    input: Vec<u8>,
) -> Result<Ran, AllocError> {
    let mut folder = PlainFolder::new(files);
    let mut input = PlainSource::new(input);
    let mut out = PlainSink::new(alloc, ROOM)?;
    let mut kept = None;
    let status = run(
        rt,
        alloc,
        words,
        &mut folder,
        &mut input,
        &mut out,
        &NoPace,
        &mut kept,
    );
    Ok(Ran { status, out, kept })
}

/// Words that stand one space apart.
pub(crate) fn words_of(alloc: Global, line: &str) -> Result<Vec<String>, AllocError> {
    let mut words = Vec::new(alloc);
    for word in line.split(' ') {
        if !word.is_empty() {
            words.push(String::from_str(alloc, word)?)?;
        }
    }
    Ok(words)
}

/// The bytes that a text of a table stands for.
pub(crate) fn spelled(alloc: Global, text: &str) -> Result<Vec<u8>, AllocError> {
    let mut bytes = Vec::new(alloc);
    for byte in text.bytes() {
        bytes.push(match byte {
            b'~' => b'"',
            b'|' => b'\n',
            b'`' => b'\r',
            b'%' => 0xFF,
            _ => byte,
        })?;
    }
    Ok(bytes)
}

/// Takes the files of a row, each as its name and its bytes in braces, to the words and the files.
pub(crate) fn read_files(
    alloc: Global,
    row: &str,
    words: &mut Vec<String>,
    files: &mut Vec<(String, Vec<u8>)>,
) -> Result<(), AllocError> {
    for part in row.split('}') {
        if let Some((name, bytes)) = part.split_once('{') {
            words.push(String::from_str(alloc, name)?)?;
            if bytes != "^" {
                files.push((String::from_str(alloc, name)?, spelled(alloc, bytes)?))?;
            }
        }
    }
    Ok(())
}

/// What stands behind the files of a row.
pub(crate) fn input_of(row: &str) -> &str {
    match row.rsplit_once('}') {
        Some((_, input)) => input,
        None => row,
    }
}

/// Runs a row with so many workers.
fn run_row<R: Threads + Sync>(
    rt: &R,
    alloc: Global,
    workers: &str,
    row: &str,
) -> Result<Ran, AllocError> {
    let (command, rest) = row.split_once(' ').unwrap_or((row, ""));
    let line = format!(in alloc; "{command} {workers}")?;
    let mut words = words_of(alloc, &line)?;
    let mut files = Vec::new(alloc);
    read_files(alloc, rest, &mut words, &mut files)?;
    run_on(rt, alloc, &words, files, spelled(alloc, input_of(rest))?)
}

/// A run ended with the status that is wanted, and wrote what stands behind it.
pub(crate) fn expect<R: Abort>(
    rt: &R,
    alloc: Global,
    status: u8,
    written: &[u8],
    want: &str,
    row: &str,
) -> Result<(), AllocError> {
    let (number, text) = want.split_once(' ').unwrap_or((want, ""));
    let bytes = spelled(alloc, text)?;
    assert_eq!(rt; written, bytes.as_slice(), "at {row}");
    assert_eq!(rt; number.parse::<u8>().ok(), Some(status), "at {row}");
    Ok(())
}

/// A row has the status and the output that are wanted, with each of these words for the workers.
fn expect_row<R: Abort + Threads + Sync>(
    rt: &R,
    alloc: Global,
    each: &str,
    row: &str,
    want: &str,
) -> Result<(), AllocError> {
    for workers in each.split('|') {
        let ran = run_row(rt, alloc, workers, row)?;
        expect(rt, alloc, ran.status, ran.out.written(), want, row)?;
    }
    Ok(())
}

/// The same of each row of a table. Answers how many rows there were.
fn expect_rows<R: Abort + Threads + Sync>(
    rt: &R,
    alloc: Global,
    each: &str,
    table: &str,
) -> Result<usize, AllocError> {
    let mut rows: usize = 0;
    for line in table.lines() {
        if let Some((row, want)) = line.trim_start().rsplit_once("=>") {
            expect_row(rt, alloc, each, row, want)?;
            rows = rows.saturating_add(1);
        }
    }
    Ok(rows)
}

#[test]
fn shows_sheets_and_refuses_others(rt: HostRuntime) -> Result<(), Fail> {
    assert_eq!(rt; expect_rows(&rt, rt.alloc(), EACH, SHEETS)?, 30);
    assert_eq!(rt; expect_rows(&rt, rt.alloc(), EACH, COMPUTED)?, 11);
    assert_eq!(rt; expect_rows(&rt, rt.alloc(), EACH, REFUSED_SHEETS)?, 17);
    assert_eq!(rt; expect_rows(&rt, rt.alloc(), EACH, EXAMPLES)?, 5);
    Ok(())
}

#[test]
fn edits_by_scripts_and_refuses_others(rt: HostRuntime) -> Result<(), Fail> {
    assert_eq!(rt; expect_rows(&rt, rt.alloc(), EACH, SCRIPTS)?, 27);
    assert_eq!(rt; expect_rows(&rt, rt.alloc(), EACH, SEVERAL_FILES)?, 15);
    assert_eq!(rt; expect_rows(&rt, rt.alloc(), EACH, REFUSED_SCRIPTS)?, 20);
    assert_eq!(rt; expect_rows(&rt, rt.alloc(), EACH, SAVES)?, 9);
    Ok(())
}

/// A line for each row from the one to the other, with the row's number in it.
fn column(
    alloc: Global,
    first: u32,
    last: u32,
    before: &str,
    behind: &str,
) -> Result<String, AllocError> {
    let mut text = String::new(alloc);
    for row in first..=last {
        write!(text, "{before}{row}{behind}\n")?;
    }
    Ok(text)
}

/// A sheet is shown as is wanted.
fn expect_shown<R: Abort + Threads + Sync>(
    rt: &R,
    alloc: Global,
    sheet: &str,
    want: &str,
) -> Result<(), AllocError> {
    let row = format!(in alloc; "show {sheet}")?;
    let want = format!(in alloc; "0 {want}")?;
    expect_row(rt, alloc, FEW, &row, &want)
}

/// Columns whose cells lead down, up and round.
fn expect_columns<R: Abort + Threads + Sync>(rt: &R, alloc: Global) -> Result<(), AllocError> {
    let numbers = column(alloc, 1, 3000, "", "")?;
    let mut sheet = String::from_str(alloc, "1\n")?;
    sheet.push_str(&column(alloc, 1, 2999, "=A", "+1")?)?;
    expect_shown(rt, alloc, &sheet, &numbers)?;
    let mut sheet = column(alloc, 2, 3000, "=A", "-1")?;
    sheet.push_str("3000\n")?;
    expect_shown(rt, alloc, &sheet, &numbers)
}

/// A column of 1,000 cells that leads round.
fn expect_round<R: Abort + Threads + Sync>(rt: &R, alloc: Global) -> Result<(), AllocError> {
    let mut sheet = column(alloc, 2, 1000, "=A", "")?;
    sheet.push_str("=A1\n")?;
    let mut marks = String::new(alloc);
    for _ in 0..1000 {
        marks.push_str("#CYCLE(1000)!\n")?;
    }
    expect_shown(rt, alloc, &sheet, &marks)
}

#[test]
fn follows_long_chains_and_loops(rt: HostRuntime) -> Result<(), Fail> {
    expect_columns(&rt, rt.alloc())?;
    expect_round(&rt, rt.alloc())?;
    assert_eq!(rt; expect_rows(&rt, rt.alloc(), FEW, LARGE)?, 5);
    Ok(())
}

#[test]
fn sums_large_ranges(rt: HostRuntime) -> Result<(), Fail> {
    assert_eq!(rt; expect_rows(&rt, rt.alloc(), FEW, SUMS)?, 1);
    Ok(())
}

/// Runs, and the round that they keep: how many cells it had, or `-` where none is kept.
const ROUNDS: &str = "
    show =>-
    show 1,2|=>-
    show 1,=A1,=B1|=>2
    show =1+|=>-
    frob =>-
    edit s.csv{7,=A1,=2|}=>-
    edit s.csv{7,=A1,=2|}set A1 1|=>-
    edit s.csv{7,=A1,=2|}frob|recalc|=>-
    edit s.csv{7,=A1,=1+|}recalc|=>-
    edit s.csv{7|}recalc|show A1|print|cycles|=>-
    edit s.csv{7,=A1,=2|}recalc|=>2
    edit s.csv{7,=A1,=2|}show A1|=>2
    edit s.csv{7,=A1,=2|}print|=>2
    edit s.csv{=A1,=A1,=2|}cycles|=>3
    edit s.csv{7,=A1,=2|}recalc|frob|=>2
    edit s.csv{7,=A1,=2|}recalc|set A1 3|=>2
    edit s.csv{7,=A1,=2|}recalc|set A1 3|recalc|recalc|=>1
    edit s.csv{7,=A1,=2|}whatif A1 1 2 B1|=>2
    edit s.csv{7,=A1,=2|}recalc|set A1 3|whatif A1 1 2 B1|=>1
";

/// Each cell of the round is done.
fn is_done(outcome: &Outcome) -> bool {
    for i in 0..outcome.len() {
        if !matches!(outcome.word(i), CellWord::Done { .. }) {
            return false;
        }
    }
    true
}

/// What is kept is nothing for `-`, or a round of so many cells, each of them done, by the workers that the words give.
fn is_kept(kept: &Option<Outcome>, workers: &str, want: &str) -> bool {
    let count = match workers.split_once(' ') {
        Some((_, count)) => count,
        None => "4",
    };
    match kept {
        None => want == "-",
        Some(outcome) => {
            want.parse::<u32>().ok() == Some(outcome.len())
                && count.parse::<u8>().ok() == Some(outcome.workers())
                && is_done(outcome)
        }
    }
}

/// Each row of the table keeps the round that is wanted.
fn expect_rounds<R: Abort + Threads + Sync>(
    rt: &R,
    alloc: Global,
    workers: &str,
) -> Result<usize, AllocError> {
    let mut rows: usize = 0;
    for line in ROUNDS.lines() {
        if let Some((row, want)) = line.trim_start().rsplit_once("=>") {
            let ran = run_row(rt, alloc, workers, row)?;
            assert!(rt; is_kept(&ran.kept, workers, want), "at {row}");
            rows = rows.saturating_add(1);
        }
    }
    Ok(rows)
}

#[test]
fn keeps_the_last_round(rt: HostRuntime) -> Result<(), Fail> {
    for workers in EACH.split('|') {
        assert_eq!(rt; expect_rounds(&rt, rt.alloc(), workers)?, 19);
    }
    Ok(())
}

/// What words, a sheet and a script come to, which are given as bytes.
fn expect_bytes<R: Abort + Threads + Sync>(
    rt: &R,
    alloc: Global,
    command: &str,
    sheet: &[u8],
    input: Vec<u8>,
    want: &str,
) -> Result<(), AllocError> {
    let words = words_of(alloc, command)?;
    let ran = run_on(rt, alloc, &words, one_file(alloc, sheet)?, input)?;
    expect(rt, alloc, ran.status, ran.out.written(), want, command)
}

/// The file `a.csv` with these bytes.
pub(crate) fn one_file(alloc: Global, bytes: &[u8]) -> Result<Vec<(String, Vec<u8>)>, AllocError> {
    let mut files = Vec::new(alloc);
    let bytes = Vec::from_slice(alloc, bytes)?;
    files.push((String::from_str(alloc, "a.csv")?, bytes))?;
    Ok(files)
}

/// Each row of a table has the status and the output that are wanted. A row has its words, a colon and the input.
fn expect_inputs<R: Abort + Threads + Sync>(
    rt: &R,
    alloc: Global,
    table: &str,
) -> Result<usize, AllocError> {
    let mut rows: usize = 0;
    for line in table.lines() {
        if let Some((row, want)) = line.trim_start().rsplit_once("=>") {
            let (words, input) = row.split_once(':').unwrap_or((row, ""));
            expect_bytes(rt, alloc, words, b"", spelled(alloc, input)?, want)?;
            rows = rows.saturating_add(1);
        }
    }
    Ok(rows)
}

#[test]
fn traces_steps_and_generates_books(rt: HostRuntime) -> Result<(), Fail> {
    assert_eq!(rt; expect_inputs(&rt, rt.alloc(), TRACES)?, 13);
    assert_eq!(rt; expect_inputs(&rt, rt.alloc(), DEMOS)?, 4);
    Ok(())
}

/// A row of so many commas and a letter.
fn wide_row(alloc: Global, commas: usize) -> Result<Vec<u8>, AllocError> {
    let mut row = vec![in alloc; b','; commas]?;
    row.extend_from_slice(b"x\n")?;
    Ok(row)
}

/// The widest row is shown as it is.
fn expect_widest<R: Abort + Threads + Sync>(rt: &R, alloc: Global) -> Result<(), AllocError> {
    let words = words_of(alloc, "show")?;
    let row = wide_row(alloc, 255)?;
    let ran = run_on(rt, alloc, &words, Vec::new(alloc), row.clone()?)?;
    assert_eq!(rt; (ran.status, ran.out.written()), (0, row.as_slice()));
    Ok(())
}

/// A sheet with as many cells as a book may have is refused at one more.
fn expect_too_many<R: Abort + Threads + Sync>(rt: &R, alloc: Global) -> Result<(), AllocError> {
    let mut sheet = Vec::new(alloc);
    for _ in 0..50_000 {
        sheet.extend_from_slice(b"1,1,1,1\n")?;
    }
    sheet.push(b'1')?;
    let want = "3 refused Sheet1 row 50001 column 1: S3|";
    expect_bytes(rt, alloc, "show", b"", sheet, want)
}

#[test]
fn meets_the_limits(rt: HostRuntime) -> Result<(), Fail> {
    let alloc = rt.alloc();
    expect_widest(&rt, alloc)?;
    expect_too_many(&rt, alloc)?;
    let wide = wide_row(alloc, 256)?;
    expect_bytes(
        &rt,
        alloc,
        "show",
        b"",
        wide,
        "3 refused Sheet1 row 1 column 257: S2|",
    )?;
    let long = vec![in alloc; b'1'; 67_108_865]?;
    let recalc = Vec::from_slice(alloc, b"recalc\n")?;
    expect_bytes(&rt, alloc, "edit a.csv", &long, recalc, "3 refused a: S4|")?;
    expect_bytes(&rt, alloc, "show", b"", long, "3 refused Sheet1: S4|")?;
    let long = vec![in alloc; b'\n'; 16_777_217]?;
    expect_bytes(
        &rt,
        alloc,
        "edit a.csv",
        b"1\n",
        long,
        "4 refused script: E6|",
    )?;
    Ok(())
}

/// Words that are refused, a line each; the first has none.
const REFUSED: &str = "
    frob
    Show
    show show
    show x
    show --workers
    show --workers 0
    show --workers 04
    show --workers 65
    show --workers 2 --workers 2
    show --help
    edit
    edit --workers 2
    edit --order 1 a.csv
    edit 1 2 3 4 5 6 7 8 9 10 11 12 13 14 15 16 17
    trace x
    demo 0
    --help
";

/// Words of `show` that are accepted, a line each.
const ACCEPTED: &str = "
    show
    show --
    show --workers 1
    show --workers=64
    show --workers 64 --
";

/// Words of `edit` that are accepted.
const EDITS: &str = "
    edit a.csv
    edit a.csv --workers 3
    edit --workers=64 -- a.csv
";

/// What the program makes of the words of each line of a table, with a file `a.csv`: the same status and output each
/// time. Answers how many lines there were.
fn expect_each<R: Abort + Threads + Sync>(
    rt: &R,
    alloc: Global,
    table: &str,
    input: &[u8],
    want: &str,
) -> Result<usize, AllocError> {
    let mut lines: usize = 0;
    for line in table.trim().lines() {
        let input = Vec::from_slice(alloc, input)?;
        expect_bytes(rt, alloc, line, b"=-7/2\n", input, want)?;
        lines = lines.saturating_add(1);
    }
    Ok(lines)
}

#[test]
fn accepts_words(rt: HostRuntime) -> Result<(), Fail> {
    let alloc = rt.alloc();
    assert_eq!(rt; expect_each(&rt, alloc, ACCEPTED, b"=-7/2\n", "0 -3|")?, 5);
    assert_eq!(rt; expect_each(&rt, alloc, EDITS, b"print", "0 -3|")?, 3);
    assert_eq!(rt;
        expect_each(&rt, alloc, REFUSED, b"print", "2 refused words|")?,
        17
    );
    expect_bytes(&rt, alloc, "", b"", Vec::new(alloc), "2 refused words|")?;
    Ok(())
}

/// How often a worker looks for the other one.
const LOOKS: u32 = 1_000_000;

/// Holds each of two workers before its first step until the other one has come to its first step, and notes where one
/// looked for the other in vain.
#[derive(Drop)]
struct Gate {
    zero: AtomicU64,
    one: AtomicU64,
    late: AtomicU64,
}

impl Gate {
    fn hold(&self, own: &AtomicU64, other: &AtomicU64) {
        if own.swap(1, Ordering::SeqCst) == 1 {
            return;
        }
        for _ in 0..LOOKS {
            if other.load(Ordering::SeqCst) == 1 {
                return;
            }
            yield_now();
        }
        self.late.store(1, Ordering::SeqCst);
    }
}

impl Pace for Gate {
    fn before(&self, worker: u8, _kind: Kind) {
        if worker == 0 {
            self.hold(&self.zero, &self.one);
        } else {
            self.hold(&self.one, &self.zero);
        }
    }
}

/// The status of `show` with two workers on two cells, at this pace.
fn show_at<R: Threads + Sync, P: Pace>(rt: &R, alloc: Global, pace: &P) -> Result<u8, AllocError> {
    let words = words_of(alloc, "show --workers 2")?;
    let mut folder = PlainFolder::new(Vec::new(alloc));
    let mut input = PlainSource::new(Vec::from_slice(alloc, b"=1,=2")?);
    let mut out = PlainSink::new(alloc, ROOM)?;
    let mut kept = None;
    Ok(run(
        rt,
        alloc,
        &words,
        &mut folder,
        &mut input,
        &mut out,
        pace,
        &mut kept,
    ))
}

#[test]
fn two_workers_meet(rt: HostRuntime) -> Result<(), Fail> {
    let gate = Gate {
        zero: AtomicU64::new(0),
        one: AtomicU64::new(0),
        late: AtomicU64::new(0),
    };
    let status = show_at(&rt, rt.alloc(), &gate)?;
    assert_eq!(rt; status, 0);
    assert_eq!(rt; gate.zero.load(Ordering::SeqCst), 1);
    assert_eq!(rt; gate.one.load(Ordering::SeqCst), 1);
    assert_eq!(rt; gate.late.load(Ordering::SeqCst), 0);
    Ok(())
}
