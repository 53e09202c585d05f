// The worked scenarios that have recovery rounds, each with its name.

/// Name and text of each.
pub const ROWS: [(&str, &str); 10] = [
    (
        "split in halves",
        "weights = [1, 1, 1, 1]\nsteps = [\n  \"begin t 1 1,2,3,4\",\n  \"write t 1.x a\",\n  \"split 1,2|3,4\",\n  \"commit t\",\n  \"recover 1,2\",\n  \"recover 3,4\",\n  \"merge\",\n  \"recover 1,2,3,4\",\n]\n",
    ),
    (
        "cascade commits",
        "weights = [1, 1, 1]\nsteps = [\n  \"begin t 1 1,2,3\",\n  \"write t 1.x a\",\n  \"write t 2.y b\",\n  \"write t 3.z c\",\n  \"stop 1 8 all\",\n  \"commit t\",\n  \"stop 3 5 none\",\n  \"elect 2 t 2,3\",\n  \"restart 1\",\n  \"restart 3\",\n  \"crash 2\",\n  \"recover 1,3\",\n  \"restart 2\",\n  \"recover 1,2,3\",\n]\n",
    ),
    (
        "cascade aborts",
        "weights = [1, 1, 1]\nsteps = [\n  \"begin t 1 1,2,3\",\n  \"write t 1.x a\",\n  \"write t 2.y b\",\n  \"write t 3.z c\",\n  \"stop 1 8 all\",\n  \"commit t\",\n  \"stop 3 8 all\",\n  \"elect 2 t 2,3\",\n  \"restart 1\",\n  \"restart 3\",\n  \"crash 2\",\n  \"recover 1,3\",\n  \"restart 2\",\n  \"recover 1,2,3\",\n]\n",
    ),
    (
        "elected site stays silent",
        "weights = [1, 1, 1]\nsteps = [\n  \"begin t 1 1,2,3\",\n  \"write t 1.x a\",\n  \"elect 2 t 2\",\n  \"commit t\",\n  \"recover 1,2,3\",\n]\n",
    ),
    (
        "every packet lost",
        "weights = [1, 1]\nloss = 100\nsteps = [\n  \"begin t 1 1,2\",\n  \"write t 1.x a\",\n  \"commit t\",\n  \"recover 1,2\",\n]\n",
    ),
    (
        "members fall in a round",
        "weights = [1, 1, 1]\nsteps = [\n  \"begin t 1 1,2,3\",\n  \"begin u 1 1,2,3\",\n  \"stop 2 1 none\",\n  \"stop 3 1 none\",\n  \"recover 1,2,3\",\n]\n",
    ),
    (
        "dropped packets",
        "weights = [1, 1, 1]\nsteps = [\n  \"begin t 1 1,2,3\",\n  \"write t 1.x a\",\n  \"crash 3\",\n  \"commit t\",\n  \"restart 3\",\n  \"stop 2 5 none\",\n  \"recover 1,2,3\",\n]\n",
    ),
    (
        "a majority ends it",
        "weights = [1, 1, 1]\nrows = [\"1.x old\", \"2.y old\"]\nsteps = [\n  \"begin t 1 1,2,3\",\n  \"write t 1.x new\",\n  \"write t 2.y new\",\n  \"split 1|2,3\",\n  \"commit t\",\n  \"recover 1\",\n  \"recover 2,3\",\n  \"merge\",\n  \"recover 1,2,3\",\n]\n",
    ),
    (
        "stops between vote and attempt",
        "weights = [1, 1, 1]\nsteps = [\n  \"begin t 1 1,2,3\",\n  \"write t 2.y b\",\n  \"stop 1 5 none\",\n  \"commit t\",\n  \"recover 2,3\",\n  \"restart 1\",\n  \"recover 1,2,3\",\n]\n",
    ),
    (
        "two electors and then a recovery",
        "weights = [1, 1, 1]\nsteps = [\n  \"begin t 1 1,2,3\",\n  \"write t 2.y b\",\n  [\"elect 1 t 1,2,3\", \"elect 3 t 1,2,3\"],\n  \"recover 1,2,3\",\n]\n",
    ),
];
