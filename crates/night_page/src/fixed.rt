/// The head of each page, up to its title.
pub const HEAD: &str = "<!doctype html>
<html lang=\"en\">
<head>
<meta charset=\"utf-8\">
<meta name=\"viewport\" content=\"width=device-width\">
<style>
:root { color-scheme: light dark; --line: #8886; }
body { font: 16px/1.5 system-ui, sans-serif; max-width: 72em; margin: 1.5em auto; padding: 0 1em; }
h1 { font-size: 1.5em; margin: 0; }
h2 { font-size: 1.15em; margin: 1.6em 0 .4em; }
dl { display: flex; flex-wrap: wrap; gap: 1em; }
dl div { border: 1px solid var(--line); border-radius: 6px; padding: .5em 1em; min-width: 7em; }
dd { font-size: 1.5em; font-weight: 600; margin: 0; }
table { border-collapse: collapse; width: 100%; }
th, td { text-align: left; padding: .35em .8em .35em 0; border-bottom: 1px solid var(--line); vertical-align: top; }
td, li { overflow-wrap: anywhere; }
th button { all: unset; cursor: pointer; }
th button:focus-visible { outline: 2px solid; }
[aria-sort=ascending] button::after { content: ' \\25b2'; }
[aria-sort=descending] button::after { content: ' \\25bc'; }
input { font: inherit; max-width: 26em; padding: .3em .5em; }
summary { cursor: pointer; }
.todo > summary { font-weight: 600; }
pre { overflow-x: auto; }
summary:focus-visible, a:focus-visible, input:focus-visible { outline: 2px solid; outline-offset: 2px; }
footer { margin-top: 2em; font-size: .9em; overflow-wrap: anywhere; }
@media print {
  .find { display: none; }
  pre { white-space: pre-wrap; overflow: visible; overflow-wrap: anywhere; }
  h2, summary { break-after: avoid; }
  tr, dl { break-inside: avoid; }
}
</style>
";

/// The foot of each page: what makes its last table searchable and sortable, if the browser runs scripts.
pub const FOOT: &str = "<script>
const rows = [...document.querySelectorAll('#sets tbody tr')], body = document.querySelector('#sets tbody');
const find = document.getElementById('find'), found = document.getElementById('found');
find.oninput = () => {
    const wanted = find.value.toLowerCase();
    let count = 0;
    for (const row of rows) {
        row.hidden = !row.textContent.toLowerCase().includes(wanted);
        count += !row.hidden;
    }
    found.textContent = wanted ? count + ' of ' + rows.length : '';
};
const heads = [...document.querySelectorAll('#sets thead th')];
heads.forEach((head, k) => {
    const button = document.createElement('button');
    button.textContent = head.textContent;
    head.replaceChildren(button);
    button.onclick = () => {
        const way = head.ariaSort === 'ascending' ? -1 : 1;
        for (const other of heads) other.removeAttribute('aria-sort');
        head.ariaSort = way > 0 ? 'ascending' : 'descending';
        const text = row => row.cells[k].textContent;
        rows.sort((a, b) => way * text(a).localeCompare(text(b), 'en', { numeric: true }));
        body.append(...rows);
    };
});
// what is printed is all open
addEventListener('beforeprint', () => document.querySelectorAll('details').forEach(it => { it.open = true; }));
</script>
</body>
</html>
";
