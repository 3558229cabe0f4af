//! The texts that the program prints about itself. The script `./origins` reads them from this file.

/// The version of the program, which is that of the repository.
pub const VERSION: &str = "0.2.0";

/// The forms of a call of the program.
pub const USAGE: &str = "usage: origins [--why] [--json] [--check] [--line-buffered] [--now TIME]
               [--slurm FILE] [--vrps FILE].. VRPS < ROUTES
       origins --table [--of ASN] [--now TIME] [--slurm FILE]
               [--vrps FILE].. VRPS
       origins --diff OLD NEW
       origins --help | --version";

/// The description of the program, its options and its exit statuses.
pub const HELP: &str = "
Validate the origin of BGP routes (RFC 6811) against validated ROA payloads (VRPs). VRPS, OLD and
NEW are files of VRPs, which rpki-client, FORT, Routinator or another validator wrote as CSV or
JSON. rpki-client -c and routinator vrps --format csv write such a file. With --table or --diff, one
of the files can be -, the standard input. The program reads ROUTES from the standard input and
prints one line for each line of ROUTES:

  valid            a VRP matches the route
  invalid-length   a VRP with the AS of the route covers the route, but the route is longer than the
                   maxLength of this VRP
  invalid-as       VRPs cover the route, and none of them has the AS of the route. A covered route
                   with AS0 or without an origin AS is invalid-as too
  not-found        no VRP covers the route
  skipped          the line is of bgpdump -m and announces no route: it withdraws a route, or reports
                   the state of a session
  error: ..        the line is not a route

A route is a line of one of two forms. The first form is a prefix, a space and an AS number, for
example 192.0.2.0/24 AS64496. The second form is a line of bgpdump -m for a table or an
announcement. The origin AS of such a line is the last AS of its path. A route has no origin AS if
its path is empty, or ends in a set of AS numbers or in a segment of a confederation.

Warning: if a path is empty or ends in a segment of a confederation, the origin AS is the AS of the
router itself (RFC 6811, 2). The program does not know this AS. Your own routes can therefore be
invalid-as by mistake. Replace such a path by the AS of the router before you run the program. The
manual page origins(1) has the commands in its examples.

The program collects up to 64 KiB of answers before it writes them, and writes the rest at the end.
With --line-buffered it writes each answer as soon as it has read the line.

Options:

  --why        print after the result each VRP that covers the route, the longest prefix first. The
               reason is in front of the VRP, as in match:192.0.2.0/23-24:AS64496. The reasons are:
               match:   the VRP matches the route
               length:  the VRP has the AS of the route, but the route is longer than the
                        maxLength of the VRP
               as:      the VRP has another AS, or AS0, or the route has no origin AS
  --json       print each answer as a JSON object in one line. The members are state, reason, prefix
               and origin_asn, or error and line. With --why an object also has the member vrps
  --check      exit with status 3 if a route is invalid or a line is not a route. Without this
               option the status is 0 in these cases too. A skipped line changes no status
  --line-buffered  write each answer as soon as its line was read, for example for a live stream of
               routes. The run is slower
  --vrps FILE  use the VRPs of this file too. You can repeat this option. With it you can leave out
               VRPS
  --now TIME   leave out the VRPs that expired before TIME, the seconds since 1970-01-01 UTC that
               date +%s prints. The expiry of a VRP is the member expires of its item in JSON, or the
               field in the column Expires in CSV. VRPs without it do not expire
  --slurm FILE  apply the local exceptions of this SLURM file (RFC 8416) to the VRPs of all files
  --table      print the VRPs, sorted and each once: 192.0.2.0/23-24 AS64496
  --of ASN     with --table: print only the VRPs of this AS
  --diff       compare two files: print a line that begins with withdraw for each VRP that only OLD
               has, and then a line that begins with announce for each VRP that only NEW has
  --           end the options: each word after it is the name of a file
  -h, --help   print the help
  --version    print the version

The program prints on standard error how many VRPs it read. Check this number: the program cannot
detect that the last lines of a CSV file are missing. A last line that was cut can still be a valid
line, and the program then reports no error. If there are several files, the program prints a number
for each. With --now it prints how many of the VRPs have expired, and with --slurm how many there
are after the exceptions. Without --now the program ignores the time at which a VRP expires: an old
file is used like a new one.

Exit status:

  0  every line was answered, or with --table or --diff every line was printed. With --diff the
     status is 0 also if the files differ
  1  a file or a stream could not be read or written, or memory ran out. The status is 1 also if a
     file of VRPs or a SLURM file is invalid, or if no VRP is left because each has expired or is
     removed by the SLURM file. The program then answers no route. For an invalid file it reports
     one invalid line, item or member
  2  wrong usage
  3  with --check: a route is invalid or a line is not a route

For example, if vrps.csv has only the line AS64496,192.0.2.0/23,24:

  $ echo 192.0.2.0/25 AS64496 | origins --why vrps.csv
  invalid-length length:192.0.2.0/23-24:AS64496
  $ origins --table vrps.csv
  192.0.2.0/23-24 AS64496";
