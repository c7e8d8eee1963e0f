use contents::Kind;

static ABOUT: [&str; 50] = [
    "panel: tools for the loop cards' record store of a fire alarm panel",
    "",
    "  panel help     this text",
    "                 example: panel help",
    "  panel sheet    reads a commissioning sheet from standard input and seals its values into blocks",
    "                 example: echo 'event 3600 17 4 fire' | panel sheet",
    "  panel play     reads a script of calls from standard input and prints each call with its answer",
    "                 example: printf 'make events 9 2 1 0 60 1 1 6\\nnew 0 1 70 17 4 1\\nread 0 1\\nstate\\n' | panel play",
    "  panel story    plays a commissioning day that is built in, and says what happens and why",
    "                 example: panel story",
    "  panel bench    measures a card call, a round over 4,096 records and the longest call, in nanoseconds",
    "                 example: panel bench",
    "",
    "A sheet has a line for each value; '#' starts a comment:",
    "  event MOMENT DEVICE ZONE KIND   device 1 to 254, zone 1 to 512, KIND a number or a word",
    "  effect RELAY DELAY              relay output 1 to 64, delay 0 to 600",
    "",
    "A script has a line for each call; '#' starts a comment. In a script KIND is a number.",
    "  make events CELLS CARDS FIRST ROUNDS MOMENT DEVICE ZONE KIND",
    "                   a store of events: its cells (1 to 4096), cards (1 to 8), first serial, closed rounds, and what",
    "                   its index record says; example: make events 9 2 1 0 60 1 1 6",
    "  make effects CELLS CARDS FIRST ROUNDS RELAY DELAY",
    "                   a store of effects; example: make effects 9 2 1 0 12 60",
    "  line direct      a new line that loses nothing; there is one from the start; example: line direct",
    "  line leaky PATTERN",
    "                   a new line that loses sending j where bit j mod 32 of PATTERN is 1; example: line leaky 5",
    "  state            the whole store as text; example: state",
    "Calls of a card: C is a card, P and Q are places 0 to 7, I is a link 0 to 3.",
    "  new C P CONTENTS a new record in place P; example: new 0 1 70 17 4 1 in a store of events, new 0 1 3 30 of effects",
    "  load C P I Q     link I of the record in place P goes into place Q; example: load 0 0 2 1",
    "  copy C P Q       place P goes into place Q; example: copy 0 1 2",
    "  drop C P         place P becomes blank; example: drop 0 1",
    "  read C P         what the record in place P says; example: read 0 1",
    "  look C P I Q     begins an update: link I of the record in place P is to be what place Q holds; example: look 0 0 2 1",
    "  note C           the second step of the update; example: note 0",
    "  store C          the third step: the link is set; example: store 0",
    "  attend C         the card takes an order off the line, obeys it and replies; example: attend 0",
    "Calls of the main processor, which make a round:",
    "  open             opens a round; example: open",
    "  knock C          sends card C the present order; example: knock 0",
    "  hear C           takes a reply of card C off the line; example: hear 0",
    "  trace            marks one record that is reached; example: trace",
    "  sweep            frees the record of one cell, if it was not reached; example: sweep",
    "  settle           closes the round; example: settle",
    "Answers are a number, for read a serial and what the record says, or 'refused' and a number:",
    "  1 no such card, 2 no such place, 3 no such link, 4 an update is in hand, 5 no update at this stage,",
    "  6 the place is blank, 7 not in this phase of the round, 8 no serial or no round is left, 9 no cell is free,",
    "  14 a number or a size is out of range",
    "A call before the first store is answered 'no store', a line that is no call 'not understood'.",
    "",
];

/// Says what there is, with an example of each command.
pub(crate) fn run_help(rt: &HostRuntime) -> anyhow::Result<()> {
    for line in ABOUT.iter() {
        println!(rt; "{line}")?;
    }
    print!(rt; "Kinds of events:")?;
    for kind in Kind::ALL {
        let number = kind.number();
        print!(rt; " {number} {kind}")?;
    }
    println!(rt; "")?;
    Ok(())
}
