// What is shown for `-h`, `--help` and `--version`.
use std::io::Write;
use vs_top::Ending;

const SCREEN: &str = "\
Usage: levertaupe edit NAME < SCRIPT       answer a script over the file NAME
       levertaupe pair NAME NAME < SCRIPT  one over two files, by 1: and 2:
       levertaupe recover NAME > FILE      write the text of its swap files
       levertaupe info NAME                say what its swap files are
       levertaupe discard NAME             remove its swap files
       levertaupe stress N                 try the program with N commands
       levertaupe -h | --help              show this screen, or all commands
       levertaupe -V | --version           show the version

NAME is a file of the current folder. A script has one Ex command on a line:
  a i c        put in the lines that follow, up to a line `.`
  d m co t j   delete, move, copy and join lines
  s/\\V../../g  replace a literal text
  g/\\V../d     carry a command out at the lines with a text; v at the others
  p nu =       print lines, and their numbers
  u red        undo and redo; ea, lat and undol go through all states
  w pre q set  write the file, sync it into a swap file, quit, set options
  wundo rundo  store the history as the undo file; take it back

Example:
  $ printf 'a\\nb\\n' > f
  $ printf '1a\\nx\\n.\\nw\\nq\\n' | levertaupe edit f

Exit status 0: all was done; 1: a reply is an error. See levertaupe(1).
";

const HELP: &str = "\
Usage: levertaupe edit NAME < SCRIPT
       levertaupe pair NAME NAME < SCRIPT
       levertaupe recover NAME > FILE
       levertaupe info NAME
       levertaupe discard NAME
       levertaupe stress N
       levertaupe -h | --help
       levertaupe -V | --version

Runs a script of Ex commands over the file NAME of the current folder, and
answers each command on standard output. pair does so over two files: a line of
its script is for the first one after 1:, and for the second one after 2:, and
so is a line that it writes. After a crash, recover writes the text that the
swap files of NAME have, info shows what they are, discard removes them.
stress N tries the program: it answers N commands of its own over the file
stress.vs, and writes what came of them.

Commands, one on a line, with the range of lines before them:
  {range}a[ppend]        puts the lines that follow, up to a line `.`, after the
                         range; i[nsert] before it, c[hange] in its place
  {range}d[elete] [n]    deletes lines
  {range}m[ove] {line}   moves lines below a line; co[py] and t copy them there
  {range}j[oin][!] [n]   joins lines; with ! their blanks stay as they are
  {range}s[ubstitute]/\\V{text}/{replacement}/[g]
                         replaces a literal text, once in a line or each time
  {range}g[lobal][!]/\\V{text}/{command}
                         carries d, m, co, t, j, s, p or nu out at each line
                         with a text; v[global], or !, at each one without it
  u[ndo] [n]             takes the last change back, or goes to state n
  red[o]                 makes a change again that was taken back
  ea[rlier] [n][f]       goes n states back, or n writes; lat[er] as many on
  undol[ist]             lists the changes that no other change follows
  {range}p[rint] [n]     prints lines; nu[mber] prints them with their numbers
  {range}=               prints the number of the range's last line
  pre[serve]             syncs the text into a swap file
  w[rite][!]             writes the text into the file
  wundo                  stores the history as the undo file
  rundo                  takes the history of the undo file
  se[t] {option}         sets backup, writebackup, undofile, backupcopy=yes, no
                         or auto, fileformat=unix or dos, and undolevels={n}
  q[uit][!]              removes the swap files and ends the run
  \" {text}               a comment

A range is nothing (the current line), % (all lines), an address, or two with a
comma. An address is a line number, . (the current line) or $ (the last one),
and any +n and -n after it. A count [n] is of lines from the range's last on.

Example:
  $ printf 'a\\nb\\n' > f
  $ printf '1a\\nx\\n.\\n%%p\\nq!\\n' | levertaupe edit f
  \"f\" 2L, 4B
  change 1, 3 lines
  a
  x
  b
  quit

While a file is written it or its backup is whole, unless backup and
writebackup are both off. A script that ends without q leaves swap files with
its text. So it is of each file of pair.

Exit status; from 2 on, but for 11, a line on standard error says the same:
   0  every command did its work, or the text was recovered, and so on
   1  some reply is an error, or a write stored no undo file
   2  the arguments are none of the above, or the names of pair clash: files or
      backups of both might have one name, as those of f and g, or of f and .f
   3  a file to edit, or stress.vs, has a swap file
   4  there is no swap file
   5  the script cannot be read
   6  the output cannot be written
   7  a file cannot be read, written or removed
   8  there is not enough memory
   9  a swap file is encrypted, and none has a text
  10  no swap file has a text
  11  a swap file was damaged: lines that begin with ??? say what is missing
  12  a file has more than 4,000,000 lines, more than 268,435,456 bytes, or
      more than 1,048,576 bytes in a line
  13  the script has more than 1,073,741,824 bytes

The manual is levertaupe(1), or docs/COMMANDS.md in the repository.
";

const VERSION: &str = "levertaupe 0.1.0\n";

/// What is shown for an argument that stands alone.
pub fn text_for(argument: &str) -> Option<&'static str> {
    match argument {
        "-h" => Some(SCREEN),
        "--help" => Some(HELP),
        "-V" | "--version" => Some(VERSION),
        _ => None,
    }
}

/// Writes the text to standard output.
pub fn show(rt: &HostRuntime, text: &str) -> Ending {
    match rt.stdout().write_all(text.as_bytes()) {
        Ok(()) => Ending::Done,
        Err(_) => Ending::OutputFault,
    }
}
