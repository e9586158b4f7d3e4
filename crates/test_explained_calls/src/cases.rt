//! Lines with a fault, and calls, each with the line of an explanation that is expected for it.

use cvl_base::{BoolBinary, Cut, Element, FaultNo, Form, IntMonoid, Op};

/// Lines of scripts, the fault of each, and the words that explain it.
pub(crate) const LINES: [(&str, FaultNo, &str); 36] = [
    (
        "x",
        FaultNo::BadLine,
        "  column 2: expected = or a name, but the line ends\n",
    ),
    (
        "x : add_wuz v w",
        FaultNo::BadLine,
        "  column 3: expected = or a name\n",
    ),
    ("add_wuz v w", FaultNo::BadLine, "  column 11: expected =\n"),
    (
        "x y",
        FaultNo::BadLine,
        "  `x y` is no binding; `write y` shows a value\n",
    ),
    (
        "5x = add_wuz v w",
        FaultNo::BadLine,
        "  column 1: expected a name; a name is a letter, and then letters, digits and underscores\n",
    ),
    (
        "x x = nested 1",
        FaultNo::BadLine,
        "  column 3: expected another name than the first\n",
    ),
    (
        "x =",
        FaultNo::BadLine,
        "  column 4: expected a call, but the line ends\n",
    ),
    (
        "\tx =\t # add_wuz v w",
        FaultNo::BadLine,
        "  column 5: expected a call, but the line ends\n",
    ),
    (
        "x y = 5 1",
        FaultNo::BadLine,
        "  column 7: expected a call\n",
    ),
    (
        "x = add_wuz v, w",
        FaultNo::BadLine,
        "  column 13: expected a name, a number, T or F; a line makes one call, without parentheses or commas\n",
    ),
    (
        "x=add_wuz v = w",
        FaultNo::BadLine,
        "  column 13: expected a name, a number, T or F\n",
    ),
    (
        "write v 5",
        FaultNo::BadLine,
        "  column 9: expected a name; a name is a letter, and then letters, digits and underscores\n",
    ),
    (
        "write = v",
        FaultNo::BadLine,
        "  column 1: expected a name; write, T and F cannot be names\n",
    ),
    (
        "x = ad_wuz v w",
        FaultNo::UnknownCall,
        "  ad_wuz is no call; the nearest call is add_wuz\n",
    ),
    (
        "x y = Add_wuz v w",
        FaultNo::UnknownCall,
        "  Add_wuz is no call; the nearest call is add_wuz\n",
    ),
    (
        "x = scan v",
        FaultNo::UnknownCall,
        "  scan is no call; docs/user/calls.md lists all calls\n",
    ),
    (
        "x = write v",
        FaultNo::UnknownCall,
        "  write is no call: it begins a line of its own, and binds no name\n",
    ),
    (
        "x = add_wuz v",
        FaultNo::WrongArgumentCount,
        "  add_wuz takes integers and integers, and gives integers\n  add_wuz takes 2 arguments, and the line has 1\n",
    ),
    (
        "x = len_luz # v",
        FaultNo::WrongArgumentCount,
        "  len_luz takes integers, and gives an integer\n  len_luz takes 1 argument, and the line has 0\n",
    ),
    (
        "x = nested 1",
        FaultNo::WrongArgumentCount,
        "  nested takes an integer, and gives integers and a descriptor\n  nested binds 2 names, and the line has 1\n",
    ),
    (
        "x y = len_luz v",
        FaultNo::WrongArgumentCount,
        "  len_luz takes integers, and gives an integer\n  len_luz binds 1 name, and the line has 2\n",
    ),
    (
        "write",
        FaultNo::WrongArgumentCount,
        "  write takes a value, or a vector and its descriptor, and shows it\n  write takes 1 or 2 names, and the line has 0\n",
    ),
    (
        "write v d w",
        FaultNo::WrongArgumentCount,
        "  write takes a value, or a vector and its descriptor, and shows it\n  write takes 1 or 2 names, and the line has 3\n",
    ),
    (
        "v = dis_vuz 2147483648 3",
        FaultNo::BadNumber,
        "  2147483648 is no integer from -2147483648 to 2147483647\n",
    ),
    (
        "v = dis_vuz 7 3x",
        FaultNo::BadNumber,
        "  3x is no integer from -2147483648 to 2147483647\n",
    ),
    (
        "x y = dis_vuz - --",
        FaultNo::BadNumber,
        "  - is no integer from -2147483648 to 2147483647\n",
    ),
    (
        "v = dis_vuz 1234567890123456789012345678901234567890 1",
        FaultNo::BadNumber,
        "  1234567890123456789012345678901234567890 is no integer from -2147483648 to 2147483647\n",
    ),
    (
        "v = dis_vuz 12345678901234567890123456789012345678901 1",
        FaultNo::BadNumber,
        "  1234567890123456789012345678901234567890.. is no integer from -2147483648 to 2147483647\n",
    ),
    ("x = div_wuz v w", FaultNo::DivideByZero, ""),
    (
        "add_ruz v",
        FaultNo::BadLine,
        "  `add_ruz v` binds no name: a call stands behind a name and =\n",
    ),
    (
        "x = add_wuz(v, w)",
        FaultNo::BadLine,
        "  column 5: expected a call; a line makes one call, without parentheses or commas\n",
    ),
    (
        "abcdefghijklmnopqrstuvwxyz0123456789 = add_wuz v w",
        FaultNo::BadLine,
        "  column 1: expected a name; a name has at most 32 bytes, and this one has 36\n",
    ),
    (
        "\u{feff}x = add_wuz v w",
        FaultNo::BadLine,
        "  column 1: expected a name; the line begins with a byte order mark, which has to go\n",
    ),
    (
        "x = v",
        FaultNo::UnknownCall,
        "  v is no call; if it is a vector, `cpy_wuz v` copies its integers, and `cpy_wub v` its booleans\n",
    ),
    (
        "v = dis_vuz 7 1\u{1b}\u{7f}",
        FaultNo::BadNumber,
        "  1\\x1b\\x7f is no integer from -2147483648 to 2147483647\n",
    ),
    (
        "v = dis_vuz 12345678901234567890123456789012345678\u{20ac} 1",
        FaultNo::BadNumber,
        "  12345678901234567890123456789012345678.. is no integer from -2147483648 to 2147483647\n",
    ),
];

/// Calls, and the words for what each takes.
pub(crate) const CALLS: [(Op, &str); 8] = [
    (
        Op::Scan(IntMonoid::Add, Cut::Flat),
        "  add_suz takes integers, and gives integers\n",
    ),
    (
        Op::Reduce(IntMonoid::Add, Cut::Segmented),
        "  add_rez takes integers and a descriptor, and gives integers\n",
    ),
    (
        Op::BoolReduce(BoolBinary::And, Cut::Flat),
        "  and_rub takes booleans, and gives a boolean\n",
    ),
    (
        Op::Choose(Element::Integer),
        "  sel_wuz takes booleans, integers and integers, and gives integers\n",
    ),
    (
        Op::Permute(Form::Back, Cut::Segmented, Element::Boolean),
        "  bck_peb takes booleans, integers, a descriptor and a descriptor, and gives booleans\n",
    ),
    (
        Op::Distribute(Cut::Flat, Element::Boolean),
        "  dis_vub takes a boolean and an integer, and gives booleans\n",
    ),
    (
        Op::Nested,
        "  nested takes an integer, and gives integers and a descriptor\n",
    ),
    (
        Op::Write,
        "  write takes a value, or a vector and its descriptor, and shows it\n",
    ),
];
