//! The reader on one table of texts, and canonical texts.
use crate::{Command, read_program, write_program};
use std::test::Fail;

// A row a text: `r` for `run`, `c` for `check`, `a` for `again` or `e` for `export`, the fault and its place or `ok`, and
// the text.
const TABLE: &str = "\
r|0 NoProc|
r|2 NoProc|  
r|0 NoProc|run;
r|0 NoProc|;proc netflow arcdata=a;
r|0 NoProc|'proc' netflow arcdata=a;
r|0 NoProc|5
r|0 NoProc|=
r|11 NoProc|/* proc */ netflow
r|10 NoProc|/* proc */
r|4 MissingSemicolon|proc
r|5 UnknownWord|proc net arcdata=a;
r|4 WrongValue|proc;
r|5 WrongValue|proc 'netflow' arcdata=a;
r|5 WrongValue|proc =;
r|12 MissingSemicolon|proc netflow
r|22 MissingSemicolon|proc netflow arcdata=a
r|12 MissingOption|proc netflow;
r|13 UnknownWord|proc netflow foo=1;
c|26 UnknownWord|proc netflow arcdata=arcs foo=1;
r|45 MissingSemicolon|proc netflow arcdata=arcs nodedata=nodes; run
r|20 MissingSemicolon|proc netflow arcdata
r|21 MissingSemicolon|proc netflow arcdata=
r|20 WrongValue|proc netflow arcdata;
r|21 WrongValue|proc netflow arcdata a=b;
r|21 WrongValue|proc netflow arcdata='a';
r|21 WrongValue|proc netflow arcdata=5;
r|21 WrongValue|proc netflow arcdata==a;
r|21 WrongValue|proc netflow arcdata=;
r|ok|PROC NetFlow ArcData=A;
r|ok|proc netflow arcdata=abcdefghijklmnopqrstuvwxyz012345;
r|21 WrongValue|proc netflow arcdata=abcdefghijklmnopqrstuvwxyz0123456;
r|23 RepeatedOption|proc netflow arcdata=a arcdata=b;
r|13 WrongValue|proc netflow =;
r|13 WrongValue|proc netflow 5;
r|13 WrongValue|proc netflow 'arcdata'=a;
r|30 WrongValue|proc netflow arcdata=a thrunet=1;
r|31 RepeatedOption|proc netflow arcdata=a thrunet thrunet;
r|27 RepeatedOption|proc netflow arcdata=a max maximize;
r|31 RepeatedOption|proc netflow arcdata=a future1 nofuture1;
r|ok|proc netflow arcdata=a nofuture1;
r|27 MissingOption|proc netflow arcdata=a warm;
r|30 MissingOption|proc netflow arcdata=a conin=c;
r|ok|proc netflow arcdata=a warm conin=c dualin=d sessiondata=s;
r|44 MissingOption|proc netflow arcdata=a warm conin=c dualin=d;
r|28 OptionNotHere|proc netflow arcdata=a warm maxit1=5 conin=c;
r|32 OptionNotHere|proc netflow arcdata=a maxit1=5 warm conin=c;
r|33 OptionNotHere|proc netflow arcdata=a nofuture1 warm;
c|28 OptionNotHere|proc netflow arcdata=a warm pricetype1=best;
r|31 WrongValue|proc netflow arcdata=a defcost=x;
r|ok|proc netflow arcdata=a defcost=-1.5 defminflow=0 defcapacity=inf;
r|31 WrongValue|proc netflow arcdata=a defcost=1.;
r|31 WrongValue|proc netflow arcdata=a defcost=1.2345;
r|31 WrongValue|proc netflow arcdata=a defcost=1234567890;
r|ok|proc netflow arcdata=a defcost=999999999.999;
r|31 WrongValue|proc netflow arcdata=a defcost='1';
r|31 WrongValue|proc netflow arcdata=a defcost=1.2.3;
r|35 WrongValue|proc netflow arcdata=a defcapacity=infinite;
r|ok|proc netflow arcdata=a defcapacity=Inf;
r|ok|proc netflow arcdata=a defcapacity=10.5;
r|34 WrongValue|proc netflow arcdata=a defcontype=cost;
r|ok|proc netflow arcdata=a defcontype=le;
r|ok|proc netflow arcdata=a defcontype=g;
r|34 WrongValue|proc netflow arcdata=a defcontype==;
r|ok|proc netflow arcdata=a source=s1 sink='n 1' supply=5 demand=5;
r|31 MissingOption|proc netflow arcdata=a supply=5;
r|31 MissingOption|proc netflow arcdata=a demand=5;
r|ok|proc netflow arcdata=a source=5. sink=-3;
r|30 WrongValue|proc netflow arcdata=a source='a,b';
r|30 WrongValue|proc netflow arcdata=a source='';
r|30 WrongValue|proc netflow arcdata=a source=abcdefghijklmnopqrstuvwxyz0123456;
r|30 WrongValue|proc netflow arcdata=a source=;
r|36 MissingOption|proc netflow arcdata=a sparsecondata;
r|ok|proc netflow arcdata=a sparsecondata condata=c;
c|22 MissingOption|proc netflow arcdata=a;
c|ok|proc netflow arcdata=a certdata=c;
c|ok|proc netflow arcdata=a certdata=c; node n; quit;
c|35 StatementOrder|proc netflow arcdata=a certdata=c; run;
c|35 StatementOrder|proc netflow arcdata=a certdata=c; reset;
c|35 StatementOrder|proc netflow arcdata=a certdata=c; print arcs;
c|35 StatementOrder|proc netflow arcdata=a certdata=c; show status;
c|35 StatementOrder|proc netflow arcdata=a certdata=c; save arcout=x;
c|35 StatementOrder|proc netflow arcdata=a certdata=c; pivot;
r|30 WrongValue|proc netflow arcdata=a maxit1=x;
r|ok|proc netflow arcdata=a maxit1=999999999;
r|30 WrongValue|proc netflow arcdata=a maxit1=1000000000;
r|30 WrongValue|proc netflow arcdata=a maxit1=-1;
r|30 WrongValue|proc netflow arcdata=a maxit1=1.5;
r|ok|proc netflow arcdata=a maxit1=007 maxit2=0 pause1=1 pause2=2;
r|30 MissingSemicolon|proc netflow arcdata=a maxit1=
r|ok|proc netflow arcdata=a pricetype1=Bland pricetype2=first;
r|34 WrongValue|proc netflow arcdata=a pricetype1=5;
r|24 UnknownWord|proc netflow arcdata=a; foo;
r|24 StatementOrder|proc netflow arcdata=a; proc netflow arcdata=a;
r|24 WrongValue|proc netflow arcdata=a; 5;
r|24 WrongValue|proc netflow arcdata=a; 'run';
r|24 WrongValue|proc netflow arcdata=a; =;
r|ok|proc netflow arcdata=a;;; ; run;;
r|ok|proc netflow arcdata=a; tail t; head h; cost c; capac k; lo l; name n; supply s; demand d;
r|ok|proc netflow arcdata=a; from f; to t; upperbd u; minflow m; node n; supdem s; var x y 'z 1'; type k; rhs r; row o;
r|ok|proc netflow arcdata=a; tailnode f; headnode t; capacity u; lowerbd m; column p; coef q; id i j;
r|32 RepeatedOption|proc netflow arcdata=a; tail t; from f;
r|32 RepeatedOption|proc netflow arcdata=a; cost c; cost d;
r|29 WrongValue|proc netflow arcdata=a; cost ;
r|28 MissingSemicolon|proc netflow arcdata=a; cost
r|30 MissingSemicolon|proc netflow arcdata=a; cost c
r|31 WrongValue|proc netflow arcdata=a; cost c d;
r|29 WrongValue|proc netflow arcdata=a; cost 5;
r|29 WrongValue|proc netflow arcdata=a; cost =;
r|30 WrongValue|proc netflow arcdata=a; cost c=1;
r|29 WrongValue|proc netflow arcdata=a; cost '';
r|29 WrongValue|proc netflow arcdata=a; cost abcdefghijklmnopqrstuvwxyz0123456;
r|28 WrongValue|proc netflow arcdata=a; var ;
r|30 WrongValue|proc netflow arcdata=a; var x 5;
r|ok|proc netflow arcdata=a; id a a a;
r|29 MissingSemicolon|proc netflow arcdata=a; var x
r|29 StatementOrder|proc netflow arcdata=a; run; cost c;
r|37 RepeatedOption|proc netflow arcdata=a; cost c; run; cost d;
r|38 RepeatedOption|proc netflow arcdata=a; cost c; quit; cost d;
r|30 StatementOrder|proc netflow arcdata=a; quit; run;
r|30 StatementOrder|proc netflow arcdata=a; quit; quit;
r|30 UnknownWord|proc netflow arcdata=a; quit; foo;
r|ok|proc netflow arcdata=a; quit;;;
r|30 WrongValue|proc netflow arcdata=a; quit; 5;
r|28 UnknownWord|proc netflow arcdata=a; run now;
r|28 WrongValue|proc netflow arcdata=a; run 5;
r|30 UnknownWord|proc netflow arcdata=a; pivot x;
r|29 WrongValue|proc netflow arcdata=a; quit =;
r|27 MissingSemicolon|proc netflow arcdata=a; run
r|ok|proc netflow arcdata=a; reset;
r|30 OptionNotHere|proc netflow arcdata=a; reset arcdata=b;
r|30 UnknownWord|proc netflow arcdata=a; reset foo;
r|39 RepeatedOption|proc netflow arcdata=a; reset maxit1=5 maxit1=6;
r|38 RepeatedOption|proc netflow arcdata=a; reset future2 nofuture2;
r|ok|proc netflow arcdata=a; reset nofuture1 pricetype2=bland pause1=0;
r|30 OptionNotHere|proc netflow arcdata=a; reset warm;
r|30 OptionNotHere|proc netflow arcdata=a; reset arcout=x;
r|37 WrongValue|proc netflow arcdata=a; reset maxit1=;
r|30 WrongValue|proc netflow arcdata=a; reset =;
r|29 WrongValue|proc netflow arcdata=a; print;
r|30 UnknownWord|proc netflow arcdata=a; print status;
r|35 RepeatedOption|proc netflow arcdata=a; print arcs arcs;
r|ok|proc netflow arcdata=a; print problem solution arcs nonarcs nodes constraints;
r|30 WrongValue|proc netflow arcdata=a; print 5;
r|29 UnknownWord|proc netflow arcdata=a; show arcs;
r|ok|proc netflow arcdata=a; show status problem options;
r|28 WrongValue|proc netflow arcdata=a; show;
r|36 RepeatedOption|proc netflow arcdata=a; show status status;
r|28 WrongValue|proc netflow arcdata=a; save;
r|29 OptionNotHere|proc netflow arcdata=a; save arcdata=x;
r|29 OptionNotHere|proc netflow arcdata=a; save maxit1=1;
r|29 UnknownWord|proc netflow arcdata=a; save foo=x;
r|38 RepeatedOption|proc netflow arcdata=a; save arcout=x arcout=y;
r|ok|proc netflow arcdata=a; save arcout=a nodeout=b conout=c dualout=d sessionout=e certout=f;
r|36 WrongValue|proc netflow arcdata=a; save arcout=5;
r|5 OpenComment|proc /* netflow
r|5 OpenQuote|proc 'netflow
r|5 BadByte|proc - 5;
r|5 BadByte|proc / 5;
r|0 BadByte|%
r|12 BadByte|run; netflow, x;
r|22 BadByte|proc netflow arcdata=a%;
r|ok|proc netflow arcdata=a; /* end */
r|24 OpenComment|proc netflow arcdata=a; /* end *
r|24 OpenQuote|proc netflow arcdata=a; \"run;
r|29 OpenQuote|proc netflow arcdata=a; cost 'c\";
r|ok|proc netflow arcdata=a; cost \"c'd\";
r|31 BadByte|proc netflow arcdata=a; cost 'c\td';
r|29 OpenQuote|proc netflow arcdata=a; cost 'c\td;
r|29 MissingSemicolon|proc netflow arcdata=a; reset
r|38 MissingSemicolon|proc netflow arcdata=a; reset maxit1=5
r|34 MissingSemicolon|proc netflow arcdata=a; print arcs
r|35 MissingSemicolon|proc netflow arcdata=a; show status
r|37 MissingSemicolon|proc netflow arcdata=a; save arcout=x
r|28 MissingSemicolon|proc netflow arcdata=a; quit
r|29 MissingSemicolon|proc netflow arcdata=a; pivot
c|39 MissingSemicolon|proc netflow arcdata=a certdata=c; quit
r|29 UnknownWord|proc netflow arcdata=a; quit now;
r|29 UnknownWord|proc netflow arcdata=a; save status=x;
r|30 UnknownWord|proc netflow arcdata=a; reset arcs;
r|29 WrongValue|proc netflow arcdata=a; show 5;
r|29 WrongValue|proc netflow arcdata=a; save 'arcout'=x;
r|36 WrongValue|proc netflow arcdata=a; save arcout x;
r|37 WrongValue|proc netflow arcdata=a; reset future1=1;
r|30 WrongValue|proc netflow arcdata=a; pivot 5;
r|30 StatementOrder|proc netflow arcdata=a; quit; print arcs;
r|30 StatementOrder|proc netflow arcdata=a; quit; reset;
r|30 StatementOrder|proc netflow arcdata=a; quit; save arcout=x;
r|30 StatementOrder|proc netflow arcdata=a; quit; proc netflow;
r|30 StatementOrder|proc netflow arcdata=a; quit; cost c;
r|31 StatementOrder|proc netflow arcdata=a; reset; tail t;
c|41 StatementOrder|proc netflow arcdata=a certdata=c; quit; run;
r|ok|proc netflow arcdata=a defcontype=L;
r|ok|proc netflow arcdata=a defcontype=Ge;
r|ok|proc netflow arcdata=a defcontype=eq;
r|ok|proc netflow arcdata=a defcontype=e;
r|34 BadByte|proc netflow arcdata=a defcontype=<=;
r|ok|proc netflow arcdata=a max;
r|ok|proc netflow arcdata=a defcost=-999999999.999 defminflow=-0 defcapacity=0;
r|31 BadByte|proc netflow arcdata=a defcost=.5;
r|ok|proc netflow arcdata=a source=abcdefghijklmnopqrstuvwxyz012345 sink='abcdefghijklmnopqrstuvwxyz 12345';
r|ok|proc netflow arcdata=a; cost abcdefghijklmnopqrstuvwxyz012345; var 'abcdefghijklmnopqrstuvwxyz,./;=!';
r|13 UnknownWord|proc netflow foo=1 bar=2;
r|5 UnknownWord|proc net arcdata=5;
r|24 UnknownWord|proc netflow arcdata=a; foo; bar;
r|23 BadByte|proc netflow arcdata=5 %
r|5 BadByte|proc % 'x
r|8 OpenQuote|/* % */ 'x /*
r|31 RepeatedOption|proc netflow arcdata=a thrunet thrunet foo;
r|28 OptionNotHere|proc netflow arcdata=a warm maxit1=5 maxit1=5;
r|27 MissingOption|proc netflow arcdata=a warm; foo;
r|ok|proc/**/netflow\tarcdata/* = */=/***/a;
r|ok|proc netflow arcdata=a pricetype1=queue pricetype2=Q;
r|34 WrongValue|proc netflow arcdata=a pricetype1=qu;
r|ok|proc netflow arcdata=a queuesize1=1 queuesize2=999;
r|ok|proc netflow arcdata=a queuesize1=010;
r|34 WrongValue|proc netflow arcdata=a queuesize1=0;
r|34 WrongValue|proc netflow arcdata=a queuesize2=1000;
r|34 WrongValue|proc netflow arcdata=a queuesize2=q;
r|37 RepeatedOption|proc netflow arcdata=a queuesize1=10 queuesize1=11;
r|28 OptionNotHere|proc netflow arcdata=a warm queuesize1=10;
r|37 OptionNotHere|proc netflow arcdata=a queuesize2=10 warm;
r|ok|proc netflow arcdata=a; reset queuesize1=5 pricetype1=q queuesize2=6;
r|41 WrongValue|proc netflow arcdata=a; reset queuesize2=0;
r|29 OptionNotHere|proc netflow arcdata=a; save queuesize1=5;
r|ok|proc netflow arcdata=a; print costranges rhsranges;
r|41 RepeatedOption|proc netflow arcdata=a; print costranges CostRanges;
r|29 UnknownWord|proc netflow arcdata=a; show rhsranges;
r|ok|proc netflow arcdata=a maxflow source=s sink=t;
r|ok|proc netflow arcdata=a MF source=s sink=t;
r|ok|proc netflow sp source=s sink=t arcdata=a;
r|30 MissingOption|proc netflow arcdata=a maxflow;
r|41 MissingOption|proc netflow arcdata=a shortpath source=s;
r|39 MissingOption|proc netflow arcdata=a shortpath sink=t;
r|40 MissingOption|proc netflow arcdata=a maxflow condata=c;
r|56 WrongTogether|proc netflow arcdata=a maxflow shortpath source=s sink=t;
r|56 WrongTogether|proc netflow arcdata=a maxflow condata=c source=s sink=t;
r|59 WrongTogether|proc netflow arcdata=a shortpath nodedata=n source=s sink=t;
r|55 WrongTogether|proc netflow arcdata=a maxflow supply=5 source=s sink=t;
r|57 WrongTogether|proc netflow arcdata=a shortpath demand=5 source=s sink=t;
r|49 WrongTogether|proc netflow arcdata=a thrunet sp source=s sink=t;
r|45 WrongTogether|proc netflow arcdata=a mf max source=s sink=t;
r|82 WrongTogether|proc netflow arcdata=a warm conin=c dualin=d sessiondata=s maxflow source=s sink=t;
r|31 RepeatedOption|proc netflow arcdata=a maxflow mf;
r|25 WrongValue|proc netflow arcdata=a sp=1;
r|30 OptionNotHere|proc netflow arcdata=a; reset shortpath;
c|ok|proc netflow arcdata=a certdata=c maxflow source=s sink=t;
c|93 WrongTogether|proc netflow arcdata=a certdata=c maxflow source=s sink=t warm conin=c dualin=d sessiondata=s;
a|22 MissingOption|proc netflow arcdata=a;
a|33 MissingOption|proc netflow arcdata=a certdata=c;
a|44 MissingOption|proc netflow arcdata=a warm conin=c dualin=d;
a|ok|proc netflow arcdata=a warm conin=c dualin=d sessiondata=s;
a|ok|proc netflow arcdata=a warm conin=c dualin=d sessiondata=s certout=k; cost c; quit;
a|60 StatementOrder|proc netflow arcdata=a warm conin=c dualin=d sessiondata=s; run;
a|60 StatementOrder|proc netflow arcdata=a warm conin=c dualin=d sessiondata=s; reset;
a|66 StatementOrder|proc netflow arcdata=a warm conin=c dualin=d sessiondata=s; quit; quit;
a|28 OptionNotHere|proc netflow arcdata=a warm maxit1=5;
e|ok|proc netflow arcdata=a;
e|ok|proc netflow arcdata=a warm conin=c dualin=d sessiondata=s certdata=c; node n; quit;
e|23 MissingOption|proc netflow certdata=c;
e|24 StatementOrder|proc netflow arcdata=a; run;
e|24 StatementOrder|proc netflow arcdata=a; print arcs;
e|24 StatementOrder|proc netflow arcdata=a; save certout=k;
e|49 WrongTogether|proc netflow arcdata=a sp thrunet source=s sink=t;";

fn told(rt: &HostRuntime, text: &[u8], command: Command) -> Result<String, Fail> {
    match read_program(rt.alloc(), text, command) {
        Ok(_) => Ok(format!(in rt.alloc(); "ok")?),
        Err(fault) => Ok(format!(in rt.alloc(); "{} {:?}", fault.at, fault.kind)?),
    }
}

fn command_of(letter: &str) -> Command {
    match letter {
        "c" => Command::Check,
        "a" => Command::Again,
        "e" => Command::Export,
        _ => Command::Run,
    }
}

#[test]
fn table(rt: HostRuntime) -> Result<(), Fail> {
    for row in TABLE.lines() {
        let Some((command, rest)) = row.split_once('|') else {
            continue;
        };
        let Some((expected, text)) = rest.split_once('|') else {
            continue;
        };
        let command = command_of(command);
        let answer = told(&rt, text.as_bytes(), command)?;
        let seen = format!(in rt.alloc(); "{answer}|{text}")?;
        let wanted = format!(in rt.alloc(); "{expected}|{text}")?;
        assert_eq!(rt; seen.as_str(), wanted.as_str());
    }
    Ok(())
}

#[test]
fn longest(rt: HostRuntime) -> Result<(), Fail> {
    let mut text = Vec::new(rt.alloc());
    text.extend_from_slice(b"proc netflow arcdata=a;")?;
    for _ in text.len()..1_048_576 {
        text.push(b' ')?;
    }
    assert_eq!(rt; told(&rt, &text, Command::Run)?.as_str(), "ok");
    text.push(b' ')?;
    assert_eq!(rt; told(&rt, &text, Command::Run)?.as_str(), "1048576 TooLong");
    Ok(())
}

// A text, and its canonical text.
const CANONICAL: &str = "\
PROC netflow ARCDATA = Arcs; /* x */ Run;|proc netflow arcdata=arcs;~run;~
proc netflow warm sessiondata=S dualin=d conin=c arcdata=a;;quit|
proc netflow max certout=z sink='a b' supply=007.50 source=N arcdata=a pricetype1=best maxit1=05 maxit2=1000000;|proc netflow arcdata=a maximize source=N sink=\"a b\" supply=7.5 certout=z maxit1=5 pricetype1=best;~
proc netflow defcapacity=INF defcontype=G defcost=-0.050 arcdata=a nofuture1 future2;|proc netflow arcdata=a defcost=-0.05 defcapacity=inf defcontype=ge future2;~
proc netflow arcdata=a; from X; var 'y z' \"q'\" 'd\"' \"W\";|proc netflow arcdata=a;~tailnode X;~var \"y z\" \"q'\" 'd\"' W;~
proc netflow arcdata=a; reset nofuture1 maxit1=7 Future2; reset; pivot; print arcs problem; show options; save nodeout=B arcout=c; quit;|proc netflow arcdata=a;~reset nofuture1 maxit1=7 future2;~reset;~pivot;~print arcs problem;~show options;~save nodeout=b arcout=c;~quit;~
proc netflow sp sink=t source=s arcdata=a queuesize2=7 queuesize1=10 pricetype2=Q;|proc netflow arcdata=a shortpath source=s sink=t pricetype2=queue queuesize2=7;~
proc netflow arcout=o MF arcdata=a sink=t source=s pricetype1=queue queuesize1=099 future1;|proc netflow arcdata=a maxflow source=s sink=t arcout=o future1 pricetype1=queue queuesize1=99;~
proc netflow arcdata=a; reset queuesize1=10 pricetype1=q; print rhsranges costranges arcs;|proc netflow arcdata=a;~reset queuesize1=10 pricetype1=queue;~print rhsranges costranges arcs;~";

fn rewritten(rt: &HostRuntime, text: &[u8]) -> Result<String, Fail> {
    let mut out = String::new(rt.alloc());
    if let Ok(program) = read_program(rt.alloc(), text, Command::Run) {
        let written = write_program(rt.alloc(), &program)?;
        for b in written.bytes() {
            out.push(if *b == b'\n' { '~' } else { *b as char })?;
        }
    }
    Ok(out)
}

#[test]
fn canonical(rt: HostRuntime) -> Result<(), Fail> {
    for row in CANONICAL.lines() {
        let Some((text, wanted)) = row.split_once('|') else {
            continue;
        };
        let seen = rewritten(&rt, text.as_bytes())?;
        assert_eq!(rt; seen.as_str(), wanted);
    }
    Ok(())
}
