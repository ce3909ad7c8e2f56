// The names, as a grid: a row for each sixteen codes, four places a code, with dots behind a name and where no operation is.
ghost use Rattle.std.specs.Prelude.{◌≡◌};
ghost use Rattle.decode.specs.Names.{cell_of};

const NAMES: [u8; 1024] = *b"\
    ....................BALRBCTRBCR.................................\
    LPR.LNR.LTR.LCR.NR..CLR.OR..XR..LR..CR..AR..SR..MR..DR..ALR.SLR.\
    ................................................................\
    ................................................................\
    STH.LA..STC.IC......BAL.BCT.BC..LH..CH..AH..SH..MH..............\
    ST..............N...CL..O...X...L...C...A...S...M...D...AL..SL..\
    ................................................................\
    ................................................................\
    ........................BXH.BXLESRL.SLL.SRA.SLA.........SRDASLDA\
    STM.TM..MVI.....NI..CLI.OI..XI..LM..............................\
    ................................................................\
    ................................................................\
    ................................................................\
    ........MVC.........CLC.........................................\
    ................................................................\
    ................................................................";

// The four places of a code.
pub fn name_of(op: u8) -> [u8; 4]
    ensures { result ≡ cell_of op }
{
    let names = NAMES;
    // With `usize::from` the computed proof of the grid does not close.
    let i = op as usize * 4;
    [names[i], names[i + 1], names[i + 2], names[i + 3]]
}
