//! The texts that the program prints about itself. The script `./respath` reads them from this file.

/// The version of the program, which is that of the repository.
pub const VERSION: &str = "0.2.0";

/// The forms of a call of the program.
pub const USAGE: &str = "usage: respath [--check] [--where] [--] [FILE ..] | --help | --version";

/// The description of the program, its options and its exit statuses.
pub const HELP: &str = "
Compute with sets of AS numbers and IP addresses as they appear in RPKI certificates (RFC 3779).
Reads lines from the standard input, or from each FILE in turn (- is the standard input), and
prints one line for each. An input is read completely before its first answer.

Write one command on each line, with exactly one space after the command and after KIND. Spaces
around commas and bars are optional. The commands are:

  norm KIND LIST            print the set in canonical form
  cover v4|v6 LIST          print the shortest list of prefixes with exactly these addresses
  der KIND LIST             print the DER of the resources, in hexadecimal; LIST may be inherit
  read KIND HEX             decode the DER and print the resources
  path KIND ROOT | STEP ..  apply the steps to ROOT; print what remains, or the first refused step

KIND  as, v4 or v6. For v4 and v6 the DER is a whole IPAddrBlocks value (a SEQUENCE of families).
      For as the DER is a whole ASIdentifiers value.
LIST  blocks with commas between them: AS64500, AS64496-AS64499; 192.0.2.0/24, 10.0.0.1-10.0.0.9;
      2001:db8::/32. Host bits of a prefix are cleared.
HEX   the DER in hexadecimal digits, without spaces
ROOT  the LIST of the first certificate on the path. Each STEP is a certificate below it. Steps are
      counted from 0.
STEP  refuse LIST   refuse the path if LIST has resources outside what remains before this step
                    (RFC 6487, 7.2); otherwise LIST is what remains after it
      trim LIST     keep the resources of LIST that are in what remains (RFC 8360, 4)
      inherit       keep what remains
      missing       claim nothing: the empty set remains

Options:

  --check     exit with status 3 if an answer begins with error: or refused
  --where     append a tab and a position to an answer that begins with error: or refused. The
              position names the first wrong or overclaimed element, as in element 3: AS7-AS3.
              Elements are counted from 1 between the commas, empty ones included. In a path the
              position begins with root or with the step, as in step 0, element 2: AS12. An error
              that no single element causes has no position
  --          end the options: each word after it is the name of a file
  -h, --help  print the help
  --version   print the version of the program

Exit status:

  0  every line was answered. The status is 0 too if an answer begins with error: or refused,
     unless you pass --check. docs/ERRORS.md says what to do about such an answer
  1  a read, a write or a memory allocation failed. If a FILE cannot be read, the other files are
     still answered
  2  wrong usage
  3  with --check: an answer begins with error: or refused

For example:
  norm v4 10.0.0.0/9, 10.128.0.0/9      10.0.0.0/8
  norm as 64500, AS64496-AS64499        AS64496-AS64500
  cover v4 10.0.0.1-10.0.0.6            10.0.0.1/32, 10.0.0.2/31, 10.0.0.4/31, 10.0.0.6/32
  read v4 300c300a0402000130040302000a  10.0.0.0/8
  path as AS1-AS10 | refuse AS6, AS12   refused at step 0: overclaimed AS resources: AS12";
