// The texts that the program prints beside its answers. Made by docs/tables from docs/refusals.txt, docs/help.txt and
// the limits of crate `limits`.
#![tactic(auto)]

// A refusal in words, by its number; there is none of the number 0. Behind the last those of a cooperative's file that
// name another limit.
pub const WORDS: [u8; 1025] = *b"\
the file has more than 65,536 bytes\
a record breaks RFC 4180\
a record has not four fields, or in a gate's log not three\
bad label: not 1 to 16 bytes from 32 to 126, or a quote among them\
module and input name are not in the list\
`standard` as inp_n_excretion or tan_fraction of cattle or pigs, or as inp_n_excretion of dairy cows\
the value can't be read or is out of range; in a gate's log also hours above 24 together\
the label of an earlier herd, not the current one; of a herd to be added, the label of any\
a new label after 64 herds\
a record of another kind than its herd\
the input was given already in this herd\
the file is read through, and a herd lacks an input\
a lent buffer is shorter than what is to be written (library calls)\
the date of a gate's log can't be read or is not the next one, or the log ends before 31 December\
no herd has the label that is to be replaced or removed\
a stored total is beyond 10,000,000,000,000 grams, above or below zero (library calls)\
the file has more than 262,144 bytes\
a new label after 512 herds\
";

pub const WORDS_STARTS: [usize; 20] = [
    0, 0, 35, 59, 117, 183, 224, 324, 412, 502, 528, 566, 606, 657, 724, 821, 876, 962, 998, 1025,
];

// The last number, and the last place.
pub const REFUSALS: usize = 16;

pub const WORDS_LAST: usize = 18;

// Where the words for a cooperative's file stand, by the refusal's number.
pub const COOPERATIVE_WORDS: [usize; 17] = [
    0, 17, 2, 3, 4, 5, 6, 7, 8, 18, 10, 11, 12, 13, 14, 15, 16,
];

// What takes a file that is too large for standard input.
pub const LARGER: [u8; 58] = *b"\
--cooperative FILE takes up to 262,144 bytes and 512 herds\
";

// The pages of help, one for each command.
pub const PAGES: [u8; 9561] = *b"\
usage: urvendlo [COMMAND] [OPTION..] [FILE]\n\
\n\
Reads a farm file, which is FILE or standard input (also as -), and prints\n\
\n\
\x20 figures  each herd's flows of nitrogen and ammonia, then the farm's totals;\n\
\x20          done also where no command is given\n\
\x20 notes    each herd's notes, yes or no, on what an adviser should look at\n\
\x20 cuts     what each division that is rounded down cut off, and its divisor\n\
\x20 chart    the figures as a picture, an SVG\n\
\x20 report   a page to read, print or send: picture, figures, notes, reasons\n\
\x20 why      why each yard has its share on days with both yard and pasture\n\
\x20 line     whether the farm's ammonia is above so many grams, yes or no\n\
\x20 write    the farm as a clean file: its inputs in the order of the list\n\
\x20 edit     the farm's totals after each step: a herd is added, replaced, removed\n\
\x20 gate     the days and hours of a pasture gate's log, read in place of a farm\n\
\x20 mend     the file without what spreadsheets do to it\n\
\x20 changes  what mending changes in the file\n\
\x20 explain  what a refusal means, with an example and its mend\n\
\x20 template a farm file to start from, with a herd of each kind that is named\n\
\x20 inputs   every input of a farm file: what it is, and what it may be\n\
\x20 outputs  every output, and what it means\n\
\x20 install  puts this command in place, to be run from everywhere\n\
\x20 uninstall\n\
\x20          removes what install put in place\n\
\x20 help     this text; help COMMAND tells more of one\n\
\x20 version  which program this is, and which kit proves it\n\
\n\
\x20 -o FILE  what is printed goes to FILE, all of it or nothing; a refused file\n\
\x20          leaves FILE as it was\n\
\x20 --words  of the command why: sentences in place of records; of line: a\n\
\x20          sentence on standard error, too\n\
\x20 --farm   of edit: the farm after the last step, in place of the totals\n\
\x20 --by X   of chart and report: the herds as in the file (file), or those with\n\
\x20          the most ammonia first (ammonia)\n\
\x20 --language L\n\
\x20          of chart and report: en, de or fr\n\
\x20 --cooperative\n\
\x20          of commands whose usage names it: FILE, which has to be named, may\n\
\x20          have up to 262,144 bytes and 512 herds; else 65,536 and 64\n\
\x20 --       what follows is a file, whatever it is called\n\
\n\
The status is 0 where the answer was printed, 1 where the file was refused,\n\
2 for wrong usage, unreadable input or failed output.\n\
\n\
The bare program, target/bin/urvendlo, needs neither ./urvendlo nor the kit:\n\
urvendlo [--status-fd N] [COMMAND] [NAME] < FILE. NAME is for messages, and\n\
with --cooperative it is opened. The digit of the status goes to the descriptor\n\
N; the program's own is always 0. It has no -o, and lacks some commands, chart\n\
among them: it says then that only ./urvendlo has them.\n\
usage: urvendlo [figures] [-o FILE] [FILE | --cooperative FILE]\n\
\n\
A line a figure, herd after herd and then the totals: LABEL,MODULE,NAME and\n\
kilograms of nitrogen a year, with three decimals. A refused file gets the\n\
line refused,NUMBER,RECORD, and standard error has it in words; of a file that\n\
is named, where Python 3 is there, with the field, what may stand in it, and\n\
what to do.\n\
\n\
\x20 $ urvendlo examples/farm.csv\n\
\x20 Heifers,Livestock::OtherCattle::Excretion,n_excretion,960.000\n\
usage: urvendlo notes [-o FILE] [FILE | --cooperative FILE]\n\
\n\
A line a herd: LABEL and five times yes or no: N entered off its standard, TAN\n\
entered off its standard, a free factor that is not 0, a share of the yard that\n\
is lowered, a factor of the housing that is above 1 and counts as 1.\n\
\n\
\x20 $ urvendlo notes examples/farm.csv\n\
\x20 Heifers,no,no,no,yes,no\n\
usage: urvendlo cuts [-o FILE] [FILE | --cooperative FILE]\n\
\n\
A line a division that is rounded down: LABEL,MODULE,NAME, what was cut off,\n\
and the divisor.\n\
\n\
\x20 $ urvendlo cuts examples/odd.csv\n\
\x20 Heifers,Livestock::OtherCattle::Excretion,tan_excretion,0,10000\n\
usage: urvendlo chart [--by file|ammonia] [--language en|de|fr] [-o FILE]\n\
\x20                     [FILE | --cooperative FILE]\n\
\n\
The figures as an SVG, which any browser shows, and prints on pages of A4: of\n\
each herd a bar of its nitrogen by place, and in it the ammonia, all on one\n\
scale. It needs Python 3.\n\
\n\
\x20 $ urvendlo chart -o farm.svg examples/farm.csv\n\
usage: urvendlo report [--by file|ammonia] [--language en|de|fr] [-o FILE]\n\
\x20                      [FILE | --cooperative FILE]\n\
\n\
One page of HTML with nothing to fetch, to be read, printed on A4 or sent: the\n\
picture, the farm's totals, each herd's figures by plain names, its notes and\n\
the reason for its yard's share, where the odd grams went, which file, when and\n\
by which version. A refused file gets the page that explains its refusal. It\n\
needs Python 3.\n\
\n\
\x20 $ urvendlo report --language de examples/farm.csv > farm.html\n\
usage: urvendlo why [--words] [-o FILE] [FILE | --cooperative FILE]\n\
\n\
A line a herd with a yard: LABEL, the reason (no_such_days, not_available,\n\
as_chosen or lowered), the days with both yard and pasture, and the yard's\n\
share on them. With --words a sentence in place of the line.\n\
\n\
\x20 $ urvendlo why examples/shares.csv\n\
\x20 Heifers,lowered,180,0.2\n\
usage: urvendlo line [--words] [-o FILE] GRAMS [FILE | --cooperative FILE]\n\
\n\
Whether the farm's nh3_nlivestock is above GRAMS, a whole number from 0 to\n\
18446744073709551615: yes or no, and how many herds were added up. That is up\n\
to the first herd with which the sum is above GRAMS, or all herds. A sum that\n\
equals GRAMS is a no. The status is 0 for both. With --words standard error\n\
has it in words.\n\
\n\
\x20 $ urvendlo line 150000 examples/farm.csv\n\
\x20 yes,3\n\
usage: urvendlo write [-o FILE] [FILE | --cooperative FILE]\n\
\n\
The farm as a file that says the same: herd after herd a record for each input,\n\
in the order of the list, numbers in their shortest form, quotes only round a\n\
label with a comma. Reading it gives the same farm. Where it would have more\n\
than 262,144 bytes it is refused with 1. A file that a spreadsheet spoiled is\n\
mended first.\n\
\n\
\x20 $ urvendlo mend farm.csv | urvendlo write -o farm.csv\n\
usage: urvendlo edit [--farm] [-o FILE] [--cooperative] FARM STEP..\n\
\n\
A STEP is `add HERDFILE`, `replace HERDFILE` or `remove LABEL`. HERDFILE is a\n\
farm file of one herd; it is added as the last, or put in the place of the herd\n\
that has its label. After each step the farm's totals, 18 lines. A refused step\n\
gets the line refused,NUMBER,RECORD and changes nothing, and the next ones go\n\
on; standard error has it in words. The status is 1 where a step was refused.\n\
With --farm only the farm is printed, after the last step, as write prints it.\n\
Edits are kept with -o, which writes nothing where a step was refused.\n\
\n\
\x20 $ urvendlo edit examples/farm.csv add examples/edit/calves.csv\n\
\x20 ,Livestock,n_excretion,3831.000\n\
usage: urvendlo gate [-o FILE] [LOG]\n\
\n\
LOG has a record a day of one year: date, hours on pasture, hours on the yard.\n\
Three lines: the inputs of a farm file that it gives.\n\
\n\
\x20 $ urvendlo gate examples/gate/2024.csv\n\
\x20 grazing_days,200\n\
usage: urvendlo mend [-o FILE] [FILE]\n\
\n\
The file without the byte order mark in front, and with a CR before each bare\n\
LF outside quotes; nothing else is changed. To 262,144 bytes. The new file may\n\
replace the old one with -o, and never with >.\n\
\n\
\x20 $ urvendlo mend -o farm.csv farm.csv\n\
usage: urvendlo changes [-o FILE] [FILE]\n\
\n\
A line a change that mending makes: KIND,PLACE, with the kind 1 for the mark\n\
that is dropped, 2 for a CR that is put in, and the place in the old file.\n\
\n\
\x20 $ urvendlo changes examples/spreadsheet.csv\n\
\x20 1,0\n\
usage: urvendlo explain [-o FILE] [NUMBER]\n\
\n\
What the refusal of this NUMBER means, with a small example and its mend;\n\
without NUMBER every refusal in a few words. It needs Python 3.\n\
\n\
\x20 $ urvendlo explain 7\n\
\x20 Refusal 7: the value can't be read or is out of range; in a gate's log also\n\
usage: urvendlo template [-o FILE] [KIND..]\n\
\n\
A farm file to start from, which is accepted as it stands, with a herd of each\n\
KIND: roughage, cattle, dairy, pigs; without KIND of all four. Labels and values\n\
are examples, and yours take their place. It needs Python 3.\n\
\n\
\x20 $ urvendlo template pigs\n\
\x20 Pigs,Livestock::FatteningPigs::Excretion,animals,100\n\
usage: urvendlo inputs [-o FILE] [KIND..]\n\
\n\
Every input of a herd of this KIND (roughage, cattle, dairy, pigs; without KIND\n\
of all four) by its module: what it is, its range or the words that it may be,\n\
and its section in the model's technical description. It needs Python 3.\n\
\n\
\x20 $ urvendlo inputs dairy\n\
\x20 A record is LABEL,MODULE,INPUT,VALUE; each input of a kind is given once.\n\
usage: urvendlo outputs [-o FILE] [KIND..]\n\
\n\
Every output of a herd of this KIND (roughage, cattle, dairy, pigs; without KIND\n\
of all four) by its module, with its meaning, and the farm's totals. It needs\n\
Python 3.\n\
\n\
\x20 $ urvendlo outputs dairy\n\
\x20 Each is in kilograms of nitrogen a year. TAN is its soluble part.\n\
usage: urvendlo install [PREFIX]\n\
\n\
Puts the command in place below PREFIX, or else below ~/.local, without root:\n\
in bin the command, in lib/urvendlo the program and what goes with it, in share\n\
the man page and completion for bash and zsh. The names of the files are\n\
printed. On x86-64 the installed command needs neither the kit nor this folder,\n\
and builds nothing; on another processor URVENDLO_EMULATOR has to name a command\n\
that runs programs of x86-64, as qemu-x86_64.\n\
\n\
\x20 $ urvendlo install ~/.local\n\
usage: urvendlo uninstall [PREFIX]\n\
\n\
Removes the files that install put in place below PREFIX, and their folders\n\
where these are empty then. An installed command removes itself where no PREFIX\n\
is given. The names of the files are printed.\n\
\n\
\x20 $ urvendlo uninstall ~/.local\n\
usage: urvendlo version\n\
\n\
The commit of this program, and the kit that proves it, where there is one.\n\
";

pub const PAGES_STARTS: [usize; 21] = [
    0, 2684, 3164, 3517, 3773, 4128, 4650, 4994, 5446, 5891, 6604, 6836, 7119, 7366, 7650, 7999,
    8377, 8686, 9189, 9460, 9561,
];

// The commands' names, by the numbers of their pages.
pub const NAMES: [u8; 113] = *b"\
help\
figures\
notes\
cuts\
chart\
report\
why\
line\
write\
edit\
gate\
mend\
changes\
explain\
template\
inputs\
outputs\
install\
uninstall\
version\
";

pub const NAMES_STARTS: [usize; 21] = [
    0, 4, 11, 16, 20, 25, 31, 34, 38, 43, 47, 51, 55, 62, 69, 77, 83, 90, 97, 106, 113,
];

// The numbers of the pages, and the last of them.
pub const HELP: usize = 0;

pub const FIGURES: usize = 1;

pub const NOTES: usize = 2;

pub const CUTS: usize = 3;

pub const CHART: usize = 4;

pub const REPORT: usize = 5;

pub const WHY: usize = 6;

pub const LINE: usize = 7;

pub const WRITE: usize = 8;

pub const EDIT: usize = 9;

pub const GATE: usize = 10;

pub const MEND: usize = 11;

pub const CHANGES: usize = 12;

pub const EXPLAIN: usize = 13;

pub const TEMPLATE: usize = 14;

pub const INPUTS: usize = 15;

pub const OUTPUTS: usize = 16;

pub const INSTALL: usize = 17;

pub const UNINSTALL: usize = 18;

pub const VERSION: usize = 19;

pub const PAGE_LAST: usize = 19;
