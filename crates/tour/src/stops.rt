// The texts that the tour shows.

// A text that is read for a watch, and what it shows.
pub(crate) struct Stop {
    pub heading: &'static str,
    pub watch: i32,
    pub text: &'static str,
}

const STOPS: [Stop; 11] = [
    Stop {
        heading: "A choice of two patterns, `|`. In the second, rows follow each other, `.`, and a part may repeat, `*`.",
        watch: 2,
        text: "[op = 0] | [true].[c1 < c1']*.[op = 0]",
    },
    Stop {
        heading: "Against a wrong month length: an odd month, c3, has 30 days, c5.",
        watch: 3,
        text: "[(c3 = 1 or c3 = 3 or c3 = 5 or c3 = 7 or c3 = 9 or c3 = 11) => c5 = 30]",
    },
    Stop {
        heading: "Its companion: no day, c4, lies past its month's end, and an even month but the last has 29 days.",
        watch: 4,
        text: "[c4 <= c5 and (c3 = 2 or c3 = 4 or c3 = 6 or c3 = 8 or c3 = 10 => c5 = 29)]",
    },
    Stop {
        heading: "The empty text is no rule.",
        watch: 5,
        text: "",
    },
    Stop {
        heading: "A column alone claims nothing: a comparison is wanted.",
        watch: 5,
        text: "[c1]",
    },
    Stop {
        heading: "There are six columns, so `c7` is an unknown word.",
        watch: 5,
        text: "[c7 = 1]",
    },
    Stop {
        heading: "A number that is one too large.",
        watch: 5,
        text: "[c1 = 1000000001]",
    },
    Stop {
        heading: "A space parts `<=` into two tokens.",
        watch: 5,
        text: "[c1 < = 2]",
    },
    Stop {
        heading: "A second `=>` in a claim, with no brackets.",
        watch: 5,
        text: "[c1 = 1 => c2 = 2 => c3 = 3]",
    },
    Stop {
        heading: "Seventeen round brackets are open at once.",
        watch: 5,
        text: "(((((((((((((((((",
    },
    Stop {
        heading: "A good text, but for watch 0.",
        watch: 0,
        text: "[op = 0]",
    },
];

pub(crate) fn stops() -> &'static [Stop] {
    &STOPS
}
